//! In which order the clauses are scored for the next literal. It bears on the speed of a search, and on nothing else.
ghost use Rattle.std.specs.Prelude.{◌≤◌, length};

use clause_tables::{Clause, Tables};
use terms::limits::TABLE_PLACES;

/// The literals of a short clause, at most: tuned on bench, no promise.
const SHORT_LENGTH: usize = 4;

/// Fills the order with the numbers of the clauses, those of short clauses first, and tells how many there are.
pub(crate) fn short_first(tables: &Tables<'_>, order: &mut [u16; TABLE_PLACES]) -> usize
    ensures { result ≤ TABLE_PLACES }
{
    let count = tables.clause_count().min(order.len());
    let mut short = 0;
    for number in 0..count {
        order[number] = number as u16;
        if tables.clause(number).is_some_and(is_short) {
            order.swap(short, number);
            short += 1;
        }
    }
    count
}

/// Whether the clause is among those that are always scored.
pub(crate) fn is_short(clause: Clause<'_>) -> bool {
    clause.literals.len() <= SHORT_LENGTH
}

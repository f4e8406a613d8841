//! Which literal to try next. Scores are after Jeroslow and Wang (1990): an open clause counts the less the more of its
//! literals have no value, for each by a factor of 4 where theirs is 2. Those of a variable's two literals are multiplied.
ghost use Rattle.std.specs.Prelude.{◌≡◌, ◌+◌, ◌<◌, ◌≤◌, false, All, length};
ghost use Rattle.terms.specs.Clauses.{bad_literal, variable};
ghost use Rattle.finder_search.specs.Trail.{Unassigned};

use crate::literals::{LITERAL_ROWS, index_of, row_of};
use crate::trail::Slot;
use terms::limits::MOST_VARIABLES;

/// After so many clauses long ones more hardly change which literal is best: tuned on bench, no promise.
const ENOUGH_CLAUSES: u16 = 64;

/// The weight of an open clause is 2 to this power less the steps: tuned on bench, no promise.
const TOP_POWER: usize = 20;

/// What a literal without a value takes from that power: tuned on bench, no promise.
const STEP: usize = 2;

/// The literals that are counted for this, at most: tuned on bench, no promise.
const MOST_STEPS: usize = 9;

/// What divides the weight of a binary clause of which no literal has a value: tuned on bench, no promise.
const UNTOUCHED_BINARY: u32 = 64;

/// What divides that of a longer one: tuned on bench, no promise.
const UNTOUCHED_LONGER: u32 = 2;

/// The negative literal's score is far greater from so many times the positive one's on: tuned on bench, no promise.
const FAR_MORE: u32 = 2;

/// How much each literal would do for the open clauses, by its row.
#[derive(Clone, Copy, Debug)]
pub(crate) struct Scores {
    rows: [u32; LITERAL_ROWS],
    clauses: u16,
}

impl Scores {
    pub(crate) fn new() -> Scores {
        Scores {
            rows: [0; LITERAL_ROWS],
            clauses: 0,
        }
    }

    /// Counts an open clause for each of its literals.
    pub(crate) fn add(&mut self, clause: &[i32], trail: &[Slot])
        requires few { length trail.now ≤ MOST_VARIABLES }
        requires proper { All (λ l. bad_literal (length trail.now) l ≡ false) clause.now }
    {
        let left = clause
            .iter()
            .filter(|literal| trail[index_of(**literal)].is_unset())
            .count();
        let weight = weight(left, clause.len());
        self.clauses = self.clauses.saturating_add(1);
        for &literal in clause {
            let row = row_of(literal);
            self.rows[row] = self.rows[row].saturating_add(weight);
        }
    }

    pub(crate) fn are_enough(&self) -> bool {
        self.clauses >= ENOUGH_CLAUSES
    }

    /// The literal to try, of a variable without a value. The fallback shows that there is one.
    pub(crate) fn best(&self, trail: &[Slot], fallback: i32) -> i32
        requires few { length trail.now ≤ MOST_VARIABLES }
        requires unassigned { Unassigned trail.now fallback }
        ensures { Unassigned trail.now result }
    {
        let mut best = fallback;
        let mut most = 0_u64;
        for (index, slot) in trail.iter().enumerate() {
            if slot.is_unset() {
                let value = self.value(index);
                if value > most {
                    most = value;
                    best = self.literal(index);
                }
            }
        }
        best
    }

    /// How much it would do to split on the variable.
    fn value(&self, index: usize) -> u64
        requires { index < MOST_VARIABLES }
    {
        let (positive, negative) = self.of_variable(index);
        (u64::from(positive) + 1).saturating_mul(u64::from(negative) + 1)
    }

    /// The scores of the variable's two literals.
    fn of_variable(&self, index: usize) -> (u32, u32)
        requires { index < MOST_VARIABLES }
    {
        (self.rows[2 * index], self.rows[2 * index + 1])
    }

    /// The literal with the greater score; the positive one too where the other's is far greater, as it implies much then.
    fn literal(&self, index: usize) -> i32
        requires { index < MOST_VARIABLES }
        ensures { variable result ≡ index + 1 }
    {
        let literal = index as i32 + 1;
        let (positive, negative) = self.of_variable(index);
        let implies_more = positive > 0 && positive < negative / FAR_MORE;
        if positive >= negative || implies_more {
            literal
        } else {
            -literal
        }
    }
}

/// How much an open clause counts. One of which no literal has a value says nothing of the decisions so far.
fn weight(left: usize, size: usize) -> u32 {
    let touched = 1_u32 << (TOP_POWER - STEP * left.min(MOST_STEPS));
    if left < size {
        touched
    } else if left > 2 {
        touched / UNTOUCHED_LONGER
    } else {
        touched / UNTOUCHED_BINARY
    }
}

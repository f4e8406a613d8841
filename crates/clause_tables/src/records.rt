//! How a clause stands in the tables, and how they show it.
ghost use Rattle.std.specs.Prelude.{◌≡◌, ◌≤◌, length};
ghost use Rattle.clause_tables.specs.Entries.{LiesWithin, as_entry, blank, entry, is_soft, softs_after};
ghost use Rattle.clause_tables.specs.Wanted.{wanted, met};

use terms::limits::SOFT_PLACES;
use terms::{SoftSet, satisfies};

/// Whether a clause is hard, or which soft number it has.
#[derive(Clone, Copy, PartialEq, Eq, Debug)]
pub enum ClauseKind {
    Hard,
    Soft(u8),
}

impl ClauseKind {
    /// Whether a clause of this kind is soft.
    pub(crate) fn is_soft(self) -> bool
        ensures { result ≡ is_soft self }
    {
        matches!(self, ClauseKind::Soft(_))
    }

    /// How many soft clauses there are with one clause more, of this kind.
    pub(crate) fn softs_after(self, softs: usize) -> usize
        requires { softs ≤ SOFT_PLACES }
        ensures { result ≡ softs_after softs self }
    {
        match self {
            ClauseKind::Hard => softs,
            ClauseKind::Soft(_) => softs + 1,
        }
    }

    /// Whether a model for the set has to satisfy a clause of this kind.
    pub fn is_wanted(self, set: SoftSet) -> bool
        ensures { result ≡ wanted set self }
    {
        match self {
            ClauseKind::Hard => true,
            ClauseKind::Soft(number) => set.has(usize::from(number)),
        }
    }
}

/// One record a clause: where its literals begin in the table of literals, how many there are, and its kind.
#[derive(Clone, Copy, PartialEq, Eq, Debug)]
pub struct ClauseRecord {
    pub(crate) place: u16,
    pub(crate) size: u8,
    pub(crate) kind: ClauseKind,
}

impl ClauseRecord {
    /// A record to fill a table with before it is lent.
    pub fn blank() -> ClauseRecord
        ensures { result ≡ blank }
    {
        ClauseRecord {
            place: 0,
            size: 0,
            kind: ClauseKind::Hard,
        }
    }

    /// The record's clause, in the table of literals.
    pub(crate) fn clause(self, literals: &[i32]) -> Clause<'_>
        requires { LiesWithin (length literals.now) self }
        ensures { as_entry result ≡ entry literals.now self }
    {
        let start = usize::from(self.place);
        let end = start + usize::from(self.size);
        Clause {
            kind: self.kind,
            literals: &literals[start..end],
        }
    }
}

/// A clause as the tables show it.
#[derive(Clone, Copy, PartialEq, Eq, Debug)]
pub struct Clause<'a> {
    pub kind: ClauseKind,
    pub literals: &'a [i32],
}

impl Clause<'_> {
    /// Whether the assignment satisfies the clause, or need not as a model for the set.
    pub(crate) fn is_met(self, set: SoftSet, assignment: &[u8]) -> bool
        ensures { result ≡ met set assignment.now self.entry.kind self.entry.literals.now }
    {
        !self.kind.is_wanted(set) || satisfies(assignment, self.literals)
    }
}

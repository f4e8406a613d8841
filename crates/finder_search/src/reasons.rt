//! Why a value is implied, or why a clause is in conflict.
ghost use Rattle.std.specs.Prelude.{◌≡◌, ◌==◌, ℕ, ◌<◌, ◌≤◌, false, All, length};
ghost use Rattle.terms.specs.Clauses.{bad_literal};
ghost use Rattle.terms.specs.Masks.{member};
ghost use Rattle.clause_tables.specs.Entries.{as_entry};
ghost use Rattle.finder_search.specs.VariableSets.{has};
ghost use Rattle.finder_search.specs.Reasons.{IsJoined, IsReason, IsUnion, is_number};

use crate::literals::index_of;
use crate::trail::Slot;
use crate::variable_sets::VariableSet;
use clause_tables::{Clause, ClauseKind};
use terms::SoftSet;
use terms::limits::MOST_VARIABLES;

/// Decisions of the search, by their variables, and soft clauses.
#[derive(Clone, Copy, PartialEq, Eq, Debug)]
pub(crate) struct Reason {
    pub(crate) decisions: VariableSet,
    pub(crate) softs: SoftSet,
}

impl Reason {
    pub(crate) fn none() -> Reason
        ensures decisions { (v : ℕ) → has result.decisions v ≡ false }
        ensures softs { (k : ℕ) → member result.softs k ≡ false }
    {
        Reason {
            decisions: VariableSet::empty(),
            softs: SoftSet::empty(),
        }
    }

    /// The decision of this variable alone.
    pub(crate) fn decision(index: usize) -> Reason
        requires { index < MOST_VARIABLES }
        ensures decisions { (v : ℕ) → has result.decisions v ≡ (index == v) }
        ensures softs { (k : ℕ) → member result.softs k ≡ false }
    {
        Reason {
            decisions: VariableSet::empty().insert(index),
            softs: SoftSet::empty(),
        }
    }

    /// That the clause has to be satisfied.
    fn of_kind(kind: ClauseKind) -> Reason
        ensures decisions { (v : ℕ) → has result.decisions v ≡ false }
        ensures softs { (k : ℕ) → member result.softs k ≡ is_number kind k }
    {
        Reason {
            decisions: VariableSet::empty(),
            softs: match kind {
                ClauseKind::Hard => SoftSet::empty(),
                ClauseKind::Soft(number) => SoftSet::empty().insert(usize::from(number)),
            },
        }
    }

    /// The clause, and what makes its literals false.
    #[tactic(auto, using(std::proofs::lemmas::List::Folds::list_any_more))]
    pub(crate) fn of(clause: Clause<'_>, trail: &[Slot]) -> Reason
        requires few { length trail.now ≤ MOST_VARIABLES }
        requires proper { All (λ l. bad_literal (length trail.now) l ≡ false) clause.literals.now }
        ensures { IsReason trail.now (as_entry clause.entry) result }
    {
        let mut reason = Reason::of_kind(clause.kind);
        for &literal in clause.literals {
            let index = index_of(literal);
            reason = reason.union(trail[index].reason(index));
        }
        reason
    }

    fn union(self, other: Reason) -> Reason
        ensures { IsUnion self other result }
    {
        Reason {
            decisions: self.decisions.union(other.decisions),
            softs: self.softs.union(other.softs),
        }
    }

    /// Both together, but for the decision of this variable.
    pub(crate) fn joined(self, other: Reason, index: usize) -> Reason
        requires { index < MOST_VARIABLES }
        ensures { IsJoined self other index result }
    {
        let both = self.union(other);
        Reason {
            decisions: both.decisions.remove(index),
            softs: both.softs,
        }
    }
}

//! How a clause stands under the values that are set.
ghost use Rattle.std.specs.Prelude.{◌≡◌, false, not, All, List, ◌++◌, ◌∷◌, [], ℤ, length};
ghost use Rattle.std.specs.Option.{is_some};
ghost use Rattle.terms.specs.Clauses.{bad_literal};
ghost use Rattle.finder_search.specs.ClauseStatus.{left_with, status, truth};
ghost use Rattle.finder_search.specs.Literals.{index};
ghost use Rattle.finder_search.specs.Trail.{is_unassigned, slot_at, value_of};

use crate::literals::index_of;
use crate::trail::Slot;

/// How a clause stands. A literal that is written twice counts twice: (1, 1) without a value is open.
#[derive(Clone, Copy, PartialEq, Eq, Debug)]
pub(crate) enum ClauseStatus {
    /// A literal is true.
    Satisfied,
    /// All literals are false.
    Broken,
    /// All literals are false but this one, which has no value.
    Unit(i32),
    /// No literal is true, and several have no value; this is the first of them.
    Open(i32),
}

impl ClauseStatus {
    /// The status with one literal more that has no value.
    #[tactic(auto, using(crate::proofs::ClauseStatus::left_with_push))]
    fn with_unset(self, literal: i32) -> ClauseStatus
        ensures { (ls : List ℤ) → self ≡ left_with ls → result ≡ left_with (ls ++ literal ∷ []) }
    {
        match self {
            ClauseStatus::Broken => ClauseStatus::Unit(literal),
            ClauseStatus::Unit(first) => ClauseStatus::Open(first),
            same => same,
        }
    }
}

/// Whether the literal is true, where its variable has a value.
#[tactic(auto, using(crate::proofs::ClauseStatus::unset_none))]
fn truth(trail: &[Slot], literal: i32) -> Option<bool>
    requires { bad_literal (length trail.now) literal ≡ false }
    ensures value { result ≡ truth (value_of (slot_at trail.now (index literal))) literal }
    ensures unset { is_unassigned trail.now literal ≡ not (is_some result) }
{
    trail[index_of(literal)]
        .value()
        .map(|value| value == (literal > 0))
}

#[tactic(auto, using(crate::proofs::ClauseStatus::status_steps))]
pub(crate) fn status_of(clause: &[i32], trail: &[Slot]) -> ClauseStatus
    requires { All (λ l. bad_literal (length trail.now) l ≡ false) clause.now }
    ensures { result ≡ status trail.now clause.now }
{
    let mut status = ClauseStatus::Broken;
    for &literal in clause {
        match truth(trail, literal) {
            Some(true) => return ClauseStatus::Satisfied,
            Some(false) => {}
            None => status = status.with_unset(literal),
        }
    }
    status
}

//! How each variable stands while a search is on.
ghost use Rattle.std.specs.Prelude.{◌≡◌, ℕ, ◌<◌, false, not, slice_set, length, map};
ghost use Rattle.terms.specs.Masks.{member};
ghost use Rattle.finder_search.specs.Literals.{index, positive};
ghost use Rattle.finder_search.specs.Trail.{Unassigned, byte_of, is_deeper, is_unset, rests_on_decision, rests_on_soft, undone, value_of};
ghost use Rattle.finder_search.specs.VariableSets.{has};

use crate::literals::index_of;
use crate::reasons::Reason;
use terms::limits::MOST_VARIABLES;

/// How a variable stands. A level is how many decisions there were, one within another.
#[derive(Clone, Copy, PartialEq, Eq, Debug)]
pub(crate) enum Slot {
    Unset,
    /// The search tries this value, at this level.
    Decided(bool, u16),
    /// Each model that the reason allows gives it this value; it was implied at this level.
    Implied(bool, u16, Reason),
}

impl Slot {
    /// The value of the variable, where it has one.
    pub(crate) fn value(self) -> Option<bool>
        ensures { result ≡ value_of self }
    {
        match self {
            Slot::Unset => None,
            Slot::Decided(value, _) => Some(value),
            Slot::Implied(value, _, _) => Some(value),
        }
    }

    pub(crate) fn is_unset(self) -> bool
        ensures { result ≡ is_unset self }
    {
        matches!(self, Slot::Unset)
    }

    /// The value as a byte of an assignment.
    fn byte(self) -> u8
        ensures { result ≡ byte_of self }
    {
        u8::from(self.value() == Some(true))
    }

    /// What it rests on that the variable, at this index, has its value.
    pub(crate) fn reason(self, index: usize) -> Reason
        requires { index < MOST_VARIABLES }
        ensures decisions { (v : ℕ) → has result.decisions v ≡ rests_on_decision self index v }
        ensures softs { (k : ℕ) → member result.softs k ≡ rests_on_soft self k }
    {
        match self {
            Slot::Unset => Reason::none(),
            Slot::Decided(_, _) => Reason::decision(index),
            Slot::Implied(_, _, reason) => reason,
        }
    }

    /// Unsets the variable, if it was set deeper than this level.
    fn undo(&mut self, level: u16)
        ensures { self.new ≡ undone level self.old }
    {
        if self.is_deeper(level) {
            *self = Slot::Unset;
        }
    }

    fn is_deeper(&self, level: u16) -> bool
        ensures { result ≡ is_deeper level self.now }
    {
        match *self {
            Slot::Unset => false,
            Slot::Decided(_, own) => own > level,
            Slot::Implied(_, own, _) => own > level,
        }
    }
}

/// Makes the literal true by decision.
pub(crate) fn decide(trail: &mut [Slot], literal: i32, level: u16)
    requires { Unassigned trail.old literal }
    ensures { trail.new ≡ slice_set trail.old (index literal) (Slot.Decided (positive literal) level) }
{
    trail[index_of(literal)] = Slot::Decided(literal > 0, level);
}

/// Makes the literal true for this reason.
pub(crate) fn imply(trail: &mut [Slot], literal: i32, level: u16, reason: Reason)
    requires { Unassigned trail.old literal }
    ensures { trail.new ≡ slice_set trail.old (index literal) (Slot.Implied (positive literal) level reason) }
{
    trail[index_of(literal)] = Slot::Implied(literal > 0, level, reason);
}

/// A trial. However it ends, variables that were set deeper than its level are unset then, and no others.
pub(crate) struct Trial<'b> {
    pub(crate) trail: &'b mut [Slot],
    pub(crate) level: u16,
}

impl Drop for Trial<'_> {
    #[tactic(auto, using(crate::proofs::Undoing::undone_more))]
    fn drop(self)
        ensures { self.exit.0.now ≡ map (undone self.entry.level) self.entry.trail.now }
    {
        let Trial { trail, level } = self;
        for slot in trail.iter_mut() {
            slot.undo(level);
        }
    }
}

/// Writes the values of the variables; those without one get 0.
#[tactic(auto, using(std::proofs::lemmas::List::map_more))]
pub(crate) fn write_model(trail: &[Slot], buffer: &mut [u8])
    requires { length buffer.old ≡ length trail.now }
    ensures { buffer.new ≡ map byte_of trail.now }
{
    for (index, slot) in trail.iter().enumerate() {
        buffer[index] = slot.byte();
    }
}

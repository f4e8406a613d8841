//! The trait `Finder`. Whatever stands behind it, its calls are told by its meaning alone.
ghost use Rattle.std.specs.Prelude.{◌≡◌, length};
ghost use Rattle.std.specs.Result.{result_err};
ghost use Rattle.terms.specs.Earliest.{Changes};
ghost use Rattle.finders.specs.Meanings.{FinderMeaning, Limited, with_hard, with_soft};
ghost use Rattle.finders.specs.Refused.{hard_refused, soft_refused, ask_refused, broken_refused};
ghost use Rattle.finders.specs.Questions.{Asked, ToldBroken};

use terms::{Refusal, SoftSet};

/// What a finder answers when it is asked for a set of soft clauses. A core is a set of them, `C`.
#[derive(Clone, Copy, PartialEq, Eq, Debug)]
pub enum Answer<C = SoftSet> {
    /// An admitted assignment satisfies them all; it is in the buffer.
    Model,
    /// No admitted assignment satisfies those of this set together.
    Core(C),
}

/// Keeps hard and soft clauses, and finds out which of them can be satisfied together.
/// A refused call changes nothing, and is refused for the earliest reason that fits.
pub trait Finder {
    ghost meaning: { Self → FinderMeaning };

    /// The number of variables.
    fn variables(&self) -> usize
        ensures { result ≡ (meaning self.now).n };

    /// The number of soft clauses.
    fn soft_count(&self) -> usize
        ensures { result ≡ length (meaning self.now).softs };

    /// Why adding the hard clause would be refused, if it would.
    fn hard_refusal(&self, clause: &[i32]) -> Option<Refusal>
        ensures { result ≡ hard_refused (meaning self.now) clause.now };

    /// Why adding the soft clause would be refused, if it would.
    fn soft_refusal(&self, clause: &[i32]) -> Option<Refusal>
        ensures { result ≡ soft_refused (meaning self.now) clause.now };

    /// Admits from now on only what satisfies the clause.
    fn add_hard(&mut self, clause: &[i32]) -> Result<(), Refusal>
        ensures refusal { result_err result ≡ hard_refused (meaning self.old) clause.now }
        ensures meaning { Changes result (λ m. with_hard m clause.now) (meaning self.old) (meaning self.new) };

    /// Puts the clause last among the soft clauses.
    fn add_soft(&mut self, clause: &[i32]) -> Result<(), Refusal>
        ensures refusal { result_err result ≡ soft_refused (meaning self.old) clause.now }
        ensures meaning { Changes result (λ m. with_soft m clause.now) (meaning self.old) (meaning self.new) };

    /// Looks for an admitted assignment that satisfies all soft clauses of the set.
    /// Only a model is written into the buffer, into the first n bytes.
    fn ask(&self, set: SoftSet, buffer: &mut [u8]) -> Result<Answer, Refusal>
        ensures refusal { result_err result ≡ ask_refused (meaning self.now) set buffer.old }
        ensures answer { Asked (meaning self.now) set buffer.old result buffer.new };

    /// Which soft clauses the assignment in the first n bytes breaks.
    fn broken(&self, assignment: &[u8]) -> Result<SoftSet, Refusal>
        ensures refusal { result_err result ≡ broken_refused (meaning self.now) assignment.now }
        ensures answer { ToldBroken (meaning self.now) assignment.now result };

    ghost limited: { (x : Self) → Limited (meaning x) };
}

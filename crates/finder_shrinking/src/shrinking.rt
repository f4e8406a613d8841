//! The shrinking layer behind the trait `Finder`: it takes members out of a core as long as the rest is one.
ghost use Rattle.std.specs.Prelude.{◌≡◌, length};
ghost use Rattle.std.specs.Result.{result_err};
ghost use Rattle.terms.specs.Masks.{Subset, Below};
ghost use Rattle.finders.specs.Questions.{Asked, Core};
ghost use Rattle.finders.specs.Refused.{ask_refused};
ghost use Rattle.finder_shrinking.specs.Shrinking.{Cored, Minimal, Shrunk, Smaller};

use finders::{Answer, Finder};
use std::marker::Model;
use terms::limits::MOST_VARIABLES;
use terms::{Refusal, SoftSet};

/// A finder that means what the finder below it means, and takes from the cores of that one every member that can be spared.
#[derive(Drop)]
pub struct Shrinking<F> {
    below: F,
}

impl<F> Model for Shrinking<F> {
    ghost Value = { F };

    ghost view = { λ s. s.below };
}

impl<F: Finder> Shrinking<F> {
    pub fn new(below: F) -> Self
        ensures { result ≡ below }
    {
        Shrinking { below }
    }

    /// A core within the core, with no member to spare.
    fn shrink(&self, core: SoftSet) -> SoftSet
        requires { Core (F.Finder.meaning self.now) core }
        ensures core { Core (F.Finder.meaning self.now) result }
        ensures within { Subset result core }
        ensures minimal { Minimal (F.Finder.meaning self.now) result }
    {
        let mut small = core;
        for number in 0..self.below.soft_count() {
            small = self.spare(small, number);
        }
        small
    }

    /// The core, or a smaller one within it if the number is a member that can be spared.
    fn spare(&self, core: SoftSet, number: usize) -> SoftSet
        requires { Core (F.Finder.meaning self.now) core }
        ensures { Smaller (F.Finder.meaning self.now) core number result }
    {
        if !core.has(number) {
            return core;
        }
        self.core_within(core.remove(number)).unwrap_or(core)
    }

    /// A core within the set, or none where the set has a model. The finder below writes its model into a buffer of our own.
    fn core_within(&self, set: SoftSet) -> Option<SoftSet>
        requires { Below (length (F.Finder.meaning self.now).softs) set }
        ensures { Cored (F.Finder.meaning self.now) set result }
    {
        let mut trial = [0; MOST_VARIABLES];
        match self.below.ask(set, &mut trial) {
            Ok(Answer::Core(core)) => Some(core),
            Ok(Answer::Model) => None,
            Err(_) => None,
        }
    }
}

impl<F: Finder> Finder for Shrinking<F> {
    ghost meaning = { F.Finder.meaning };

    ghost limited = { F.Finder.limited };

    fn variables(&self) -> usize {
        self.below.variables()
    }

    fn soft_count(&self) -> usize {
        self.below.soft_count()
    }

    fn hard_refusal(&self, clause: &[i32]) -> Option<Refusal> {
        self.below.hard_refusal(clause)
    }

    fn soft_refusal(&self, clause: &[i32]) -> Option<Refusal> {
        self.below.soft_refusal(clause)
    }

    fn add_hard(&mut self, clause: &[i32]) -> Result<(), Refusal> {
        self.below.add_hard(clause)
    }

    fn add_soft(&mut self, clause: &[i32]) -> Result<(), Refusal> {
        self.below.add_soft(clause)
    }

    /// As every finder, and a core has no member to spare.
    fn ask(&self, set: SoftSet, buffer: &mut [u8]) -> Result<Answer, Refusal>
        ensures refusal { result_err result ≡ ask_refused (F.Finder.meaning self.now) set buffer.old }
        ensures answer { Asked (F.Finder.meaning self.now) set buffer.old result buffer.new }
        ensures minimal { Shrunk (F.Finder.meaning self.now) result }
    {
        match self.below.ask(set, buffer)? {
            Answer::Model => Ok(Answer::Model),
            Answer::Core(core) => Ok(Answer::Core(self.shrink(core))),
        }
    }

    fn broken(&self, assignment: &[u8]) -> Result<SoftSet, Refusal> {
        self.below.broken(assignment)
    }
}

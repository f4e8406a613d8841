//! The job: its opening, its calls, and what it tells.
ghost use Rattle.std.specs.Prelude.{◌≡◌, length, IfOk, option_map};
ghost use Rattle.std.specs.Result.{result_err};
ghost use Rattle.terms.specs.Earliest.{Changes};
ghost use Rattle.bracket.specs.Brackets.{KeepsBracket, OpensBracket};
ghost use Rattle.bracket.specs.States.{opened_on, status, ceiling, are_fresh};
ghost use Rattle.bracket.specs.Steps.{Step, hard as hard_call, soft as soft_call, round as round_call};
ghost use Rattle.jobs.specs.Copies.{copy_refused, copied_over};
ghost use Rattle.jobs.specs.Plans.{plan};

use crate::play::{Kept, Play};
use bracket::Status;
use finders::Finder;
use makers::CoverMaker;
use terms::Refusal;
use weights::WeightKind;

/// A finder and a cover maker, and what is known of the cheapest plan so far.
#[derive(Drop)]
pub struct Job<F: Finder, C: CoverMaker> {
    parts: Parts<F, C>,
}

/// What a job was opened on.
#[derive(Drop)]
pub(crate) enum Parts<F: Finder, C: CoverMaker> {
    Fresh(Play<F, C>),
    /// No call that changes a job is taken on these.
    Used { finder: F, maker: C },
}

/// What is known of the cost of the cheapest plan: it is at least the floor, and at most the ceiling.
#[derive(Clone, Copy, PartialEq, Eq, Debug)]
pub struct Bracket<W> {
    pub floor: W,
    pub ceiling: Option<W>,
}

impl<F: Finder, C: CoverMaker> Job<F, C> {
    ghost use Rattle.jobs.specs.Jobs.{state};

    /// A job on these parts, which have to be fresh for the calls that follow to be accepted.
    pub fn open(finder: F, maker: C) -> Self
        ensures state { state result ≡ opened_on C.Weight.kind (F.Finder.meaning finder) (C.CoverMaker.meaning maker) }
        ensures bracket { OpensBracket (F.Finder.meaning finder) (C.CoverMaker.meaning maker) (state result) }
    {
        let parts = if are_fresh(&finder, &maker) {
            Parts::Fresh(Play::new(finder, maker))
        } else {
            Parts::Used { finder, maker }
        };
        Job { parts }
    }

    /// From now on only what satisfies the clause is allowed.
    pub fn hard(&mut self, clause: &[i32]) -> Result<(), Refusal>
        ensures step { Step (state self.old) (hard_call clause.now) (result_err result) (state self.new) }
        ensures bracket { KeepsBracket (state self.old) (hard_call clause.now) (result_err result) (state self.new) }
    {
        match &mut self.parts {
            Parts::Fresh(play) => play.add_hard(clause),
            Parts::Used { .. } => Err(Refusal::NotFresh),
        }
    }

    /// Puts the clause last among the soft ones, and gives its number.
    pub fn soft(&mut self, weight: C::Weight, clause: &[i32]) -> Result<usize, Refusal>
        ensures step { Step (state self.old) (soft_call weight clause.now) (result_err result) (state self.new) }
        ensures number { IfOk result (λ k. k ≡ length (state self.old).finder.softs) }
        ensures bracket { KeepsBracket (state self.old) (soft_call weight clause.now) (result_err result) (state self.new) }
    {
        match &mut self.parts {
            Parts::Fresh(play) => play.add_soft(weight, clause),
            Parts::Used { .. } => Err(Refusal::NotFresh),
        }
    }

    /// One step towards the cheapest plan.
    #[tactic(auto, using(crate::proofs::Rounds::rests))]
    pub fn round(&mut self) -> Result<(), Refusal>
        ensures step { Step (state self.old) round_call (result_err result) (state self.new) }
        ensures bracket { KeepsBracket (state self.old) round_call (result_err result) (state self.new) }
    {
        match &mut self.parts {
            Parts::Fresh(play) => play.round(),
            Parts::Used { .. } => Err(Refusal::NotFresh),
        }
    }

    /// How many bytes a buffer has to have for an assignment.
    pub fn variable_count(&self) -> usize
        ensures { result ≡ (state self.now).finder.n }
    {
        match &self.parts {
            Parts::Fresh(play) => play.variable_count(),
            Parts::Used { finder, .. } => finder.variables(),
        }
    }

    /// How far the job has come.
    pub fn status(&self) -> Status
        ensures { result ≡ status (state self.now) }
    {
        match &self.parts {
            Parts::Fresh(play) => play.status(),
            Parts::Used { .. } => Status::Unasked,
        }
    }

    /// The floor, and the ceiling if an assignment is kept.
    pub fn bracket(&self) -> Bracket<C::Weight>
        ensures floor { C.Weight.kind.value result.floor ≡ (state self.now).floor }
        ensures ceiling { option_map C.Weight.kind.value result.ceiling ≡ ceiling (state self.now) }
    {
        Bracket {
            floor: self.floor(),
            ceiling: self.kept().map(|kept| kept.cost),
        }
    }

    /// Copies the kept assignment into the first n bytes.
    pub fn copy_kept(&self, buffer: &mut [u8]) -> Result<(), Refusal>
        ensures refusal { result_err result ≡ copy_refused (state self.now) buffer.old }
        ensures buffer { Changes result (copied_over (state self.now).kept) buffer.old buffer.new }
    {
        let n = self.variable_count();
        if buffer.len() < n {
            return Err(Refusal::TooShort);
        }
        let Some(kept) = self.kept() else {
            return Err(Refusal::NothingKept);
        };
        buffer[..n].copy_from_slice(&kept.values[..n]);
        Ok(())
    }

    /// No plan costs less than this.
    fn floor(&self) -> C::Weight
        ensures { C.Weight.kind.value result ≡ (state self.now).floor }
    {
        match &self.parts {
            Parts::Fresh(play) => play.floor(),
            Parts::Used { .. } => C::Weight::zero(),
        }
    }

    /// The assignment in hand.
    fn kept(&self) -> Option<Kept<C::Weight>>
        ensures { plan C.Weight.kind (state self.now).finder.n result ≡ (state self.now).kept }
    {
        match &self.parts {
            Parts::Fresh(play) => play.kept(),
            Parts::Used { .. } => None,
        }
    }
}

/// Whether the parts have no soft clauses, no weights and no cores.
fn are_fresh<F: Finder, C: CoverMaker>(finder: &F, maker: &C) -> bool
    ensures { result ≡ are_fresh (F.Finder.meaning finder.now) (C.CoverMaker.meaning maker.now) }
{
    finder.soft_count() == 0 && maker.soft_count() == 0 && maker.core_count() == 0
}

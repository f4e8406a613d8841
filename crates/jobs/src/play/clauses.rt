//! How a job takes clauses.
ghost use Rattle.std.specs.Prelude.{◌≡◌, length, IfOk, None, if◌then◌else◌};
ghost use Rattle.std.specs.Result.{result_err};
ghost use Rattle.bracket.specs.Changes.{unbroken};
ghost use Rattle.bracket.specs.Steps.{Step, hard as hard_call, soft as soft_call};
ghost use Rattle.jobs.specs.Plans.{PricedAnew};

use super::{Kept, Play};
use bracket::Phase;
use finders::Finder;
use makers::CoverMaker;
use terms::{Refusal, earlier, satisfies};

impl<F: Finder, C: CoverMaker> Play<F, C> {
    ghost use Rattle.jobs.specs.Plays.{state};

    pub(crate) fn add_hard(&mut self, clause: &[i32]) -> Result<(), Refusal>
        ensures { Step (state self.old) (hard_call clause.now) (result_err result) (state self.new) }
    {
        let broken = self.breaks(clause);
        self.finder.add_hard(clause)?;
        if broken {
            self.kept = None;
        }
        self.phase = Phase::Quick;
        Ok(())
    }

    /// Whether what is kept breaks the clause.
    fn breaks(&self, clause: &[i32]) -> bool
        ensures { unbroken clause.now (state self.now).kept ≡ (if result then None else (state self.now).kept) }
    {
        let n = self.variable_count();
        self.kept
            .is_some_and(|kept| !satisfies(&kept.values[..n], clause))
    }

    /// Both parts get something, or neither.
    pub(crate) fn add_soft(&mut self, weight: C::Weight, clause: &[i32]) -> Result<usize, Refusal>
        ensures step { Step (state self.old) (soft_call weight clause.now) (result_err result) (state self.new) }
        ensures number { IfOk result (λ k. k ≡ length (state self.old).finder.softs) }
    {
        let refusal = earlier(
            self.finder.soft_refusal(clause),
            self.maker.weight_refusal(weight),
        );
        if let Some(refusal) = refusal {
            return Err(refusal);
        }
        let number = self.finder.soft_count();
        self.finder.add_soft(clause)?;
        self.maker.add_weight(weight)?;
        self.kept = self.repriced()?;
        self.phase = Phase::Quick;
        Ok(number)
    }

    /// What is kept, with its cost worked out anew.
    fn repriced(&self) -> Result<Option<Kept<C::Weight>>, Refusal>
        ensures refusal { result_err result ≡ None }
        ensures kept { IfOk result (PricedAnew C.Weight.kind (state self.now)) }
    {
        let Some(kept) = self.kept else {
            return Ok(None);
        };
        let cost = self.cost_of(&kept.values)?;
        Ok(Some(Kept { cost, ..kept }))
    }
}

//! How a job plays rounds.
ghost use Rattle.std.specs.Prelude.{◌≡◌, length, IfOk, None};
ghost use Rattle.std.specs.Result.{result_err};
ghost use Rattle.terms.specs.Masks.{Below};
ghost use Rattle.finders.specs.Questions.{Asked};
ghost use Rattle.bracket.specs.States.{status};
ghost use Rattle.bracket.specs.Steps.{Round, Outside, Asks};
ghost use Rattle.bracket.specs.declared.states.Status.TheVariants.{Open, Unasked};
ghost use Rattle.jobs.specs.Answers.{after_first, answer_refused, keeping, TakesAnswer, TakesCover};
ghost use Rattle.jobs.specs.Plans.{AdmitsFront, AdmitsModel, is_ceiling};

use super::{Kept, Play};
use bracket::{Phase, Status};
use finders::{Answer, Finder};
use makers::CoverMaker;
use terms::limits::MOST_VARIABLES;
use terms::{Refusal, SoftSet};

impl<F: Finder, C: CoverMaker> Play<F, C> {
    ghost use Rattle.jobs.specs.Plays.{state};

    #[tactic(auto, using(crate::proofs::Rounds::rests))]
    pub(crate) fn round(&mut self) -> Result<(), Refusal>
        ensures { Round (state self.old) (result_err result) (state self.new) }
    {
        match self.status() {
            Status::Void | Status::Best => Err(Refusal::Finished),
            Status::Unasked => self.first_round(),
            Status::Open => self.next_round(),
        }
    }

    /// A round with nothing kept.
    #[tactic(auto, using(crate::proofs::Rounds::first_rounds))]
    fn first_round(&mut self) -> Result<(), Refusal>
        requires { status (state self.old) ≡ Unasked }
        ensures { Round (state self.old) (result_err result) (state self.new) }
    {
        let mut values = [0; MOST_VARIABLES];
        let answer = self.ask(SoftSet::empty(), &mut values)?;
        self.take_first_answer(answer, values)
    }

    /// Keeps the first model, or finds that there is none.
    fn take_first_answer(
        &mut self,
        answer: Answer,
        values: [u8; MOST_VARIABLES],
    ) -> Result<(), Refusal>
        requires { AdmitsModel (state self.old).finder answer values }
        ensures refusal { result_err result ≡ None }
        ensures state { state self.new ≡ after_first (state self.old) answer values }
    {
        match answer {
            Answer::Core(_) => self.void = true,
            Answer::Model => {
                self.keep(values)?;
                self.phase = Phase::Quick;
            }
        }
        Ok(())
    }

    /// A round with something kept that may not be the best.
    #[tactic(auto, using(crate::proofs::Rounds::next_rounds))]
    fn next_round(&mut self) -> Result<(), Refusal>
        requires { status (state self.old) ≡ Open }
        ensures { Round (state self.old) (result_err result) (state self.new) }
    {
        let (cover, floor) = self.take_cover()?;
        if self.is_ceiling(floor) {
            self.floor = floor;
            return Ok(());
        }
        let set = self.outside(cover);
        self.ask_outside(set, floor)
    }

    /// The soft clauses that are not in the cover.
    fn outside(&self, cover: SoftSet) -> SoftSet
        ensures { Outside (state self.now) cover result }
    {
        SoftSet::full(self.maker.soft_count()).minus(cover)
    }

    /// Asks for the set, and goes on from the answer with that floor.
    fn ask_outside(&mut self, set: SoftSet, floor: C::Weight) -> Result<(), Refusal>
        requires { Asks (state self.old) (C.Weight.kind.value floor) set }
        ensures { Round (state self.old) (result_err result) (state self.new) }
    {
        let mut values = [0; MOST_VARIABLES];
        let answer = self.ask(set, &mut values)?;
        self.take_answer(floor, answer, values)
    }

    /// Asks the finder, which does not refuse a set of given numbers.
    #[tactic(auto, using(crate::proofs::Rounds::questions))]
    fn ask(&self, set: SoftSet, values: &mut [u8; MOST_VARIABLES]) -> Result<Answer, Refusal>
        requires { Below (length (state self.now).finder.softs) set }
        ensures refusal { result_err result ≡ None }
        ensures answer { Asked (state self.now).finder set values.old result values.new }
    {
        self.finder.ask(set, values)
    }

    /// Takes the answer in. What becomes of the job depends on its phase and on the answer together.
    fn take_answer(
        &mut self,
        floor: C::Weight,
        answer: Answer,
        values: [u8; MOST_VARIABLES],
    ) -> Result<(), Refusal>
        requires { AdmitsModel (state self.old).finder answer values }
        ensures refusal { result_err result ≡ answer_refused (state self.old) answer }
        ensures state { TakesAnswer (state self.old) (C.Weight.kind.value floor) answer values result (state self.new) }
    {
        match (self.phase, answer) {
            (Phase::Quick, Answer::Model) => {
                self.keep(values)?;
                self.phase = Phase::Exact;
            }
            (Phase::Exact, Answer::Model) => self.keep(values)?,
            (Phase::Quick, Answer::Core(core)) => self.maker.add_core(core)?,
            (Phase::Exact, Answer::Core(core)) => {
                self.maker.add_core(core)?;
                self.phase = Phase::Quick;
            }
        }
        self.floor = floor;
        Ok(())
    }

    /// The cover that the next round takes, and the floor that it has by then.
    fn take_cover(&self) -> Result<(SoftSet, C::Weight), Refusal>
        ensures refusal { result_err result ≡ None }
        ensures takes { IfOk result (TakesCover (state self.now)) }
    {
        match self.phase {
            Phase::Quick => Ok((self.maker.cover(), self.floor)),
            Phase::Exact => {
                let cover = self.maker.least_cover();
                Ok((cover, self.floor.max(self.maker.cost(cover)?)))
            }
        }
    }

    /// Whether what is kept costs that.
    fn is_ceiling(&self, floor: C::Weight) -> bool
        ensures { result ≡ is_ceiling C.Weight.kind (C.Weight.kind.value floor) (state self.now).kept }
    {
        self.kept.is_some_and(|kept| floor == kept.cost)
    }

    /// Keeps the assignment where none is kept, or only a dearer one.
    fn keep(&mut self, values: [u8; MOST_VARIABLES]) -> Result<(), Refusal>
        requires { AdmitsFront (state self.old).finder values }
        ensures refusal { result_err result ≡ None }
        ensures kept { state self.new ≡ keeping (state self.old) values }
    {
        let cost = self.cost_of(&values)?;
        if self.kept.is_none_or(|kept| cost < kept.cost) {
            self.kept = Some(Kept { values, cost });
        }
        Ok(())
    }
}

//! A job on fresh parts: what it keeps, and what it tells.
ghost use Rattle.std.specs.Prelude.{◌≡◌, length, IsTrue, IfOk, None};
ghost use Rattle.std.specs.Result.{result_err};
ghost use Rattle.bracket.specs.States.{opened_on, status, are_fresh};
ghost use Rattle.jobs.specs.Plans.{AdmitsFront, AdmitsKept, Costs, plan};

mod clauses;
mod rounds;

use bracket::{Phase, Status};
use finders::Finder;
use makers::CoverMaker;
use terms::Refusal;
use terms::limits::MOST_VARIABLES;
use weights::WeightKind;

/// A finder and a cover maker that were fresh at the opening, and what is known of the cheapest plan so far.
#[derive(Drop)]
pub(crate) struct Play<F: Finder, C: CoverMaker> {
    finder: F,
    maker: C,
    floor: C::Weight,
    kept: Option<Kept<C::Weight>>,
    phase: Phase,
    void: bool,
    // Each soft clause has its weight.
    ghost paired: { length (C.CoverMaker.meaning maker).weights ≡ length (F.Finder.meaning finder).softs },
    // The finder admits what is kept.
    ghost admitted: { AdmitsKept C.Weight.kind (F.Finder.meaning finder) kept },
}

/// An assignment, in the first n bytes, with its cost.
#[derive(Clone, Copy)]
pub(crate) struct Kept<W> {
    pub(crate) values: [u8; MOST_VARIABLES],
    pub(crate) cost: W,
}

impl<F: Finder, C: CoverMaker> Play<F, C> {
    ghost use Rattle.jobs.specs.Plays.{state};

    pub(crate) fn new(finder: F, maker: C) -> Self
        requires { IsTrue (are_fresh (F.Finder.meaning finder) (C.CoverMaker.meaning maker)) }
        ensures { state result ≡ opened_on C.Weight.kind (F.Finder.meaning finder) (C.CoverMaker.meaning maker) }
    {
        Play {
            finder,
            maker,
            floor: C::Weight::zero(),
            kept: None,
            phase: Phase::Quick,
            void: false,
        }
    }

    pub(crate) fn variable_count(&self) -> usize
        ensures { result ≡ (state self.now).finder.n }
    {
        self.finder.variables()
    }

    pub(crate) fn status(&self) -> Status
        ensures { result ≡ status (state self.now) }
    {
        if self.void {
            return Status::Void;
        }
        match &self.kept {
            None => Status::Unasked,
            Some(kept) if self.floor == kept.cost => Status::Best,
            Some(_) => Status::Open,
        }
    }

    pub(crate) fn floor(&self) -> C::Weight
        ensures { C.Weight.kind.value result ≡ (state self.now).floor }
    {
        self.floor
    }

    pub(crate) fn kept(&self) -> Option<Kept<C::Weight>>
        ensures { plan C.Weight.kind (state self.now).finder.n result ≡ (state self.now).kept }
    {
        self.kept
    }

    /// What an assignment costs.
    #[tactic(auto, using(crate::proofs::Calls::cost_laws))]
    fn cost_of(&self, values: &[u8; MOST_VARIABLES]) -> Result<C::Weight, Refusal>
        requires { AdmitsFront (state self.now).finder values.now }
        ensures refusal { result_err result ≡ None }
        ensures cost { IfOk result (Costs C.Weight.kind (state self.now) values.now) }
    {
        self.maker.cost(self.finder.broken(values)?)
    }
}

//! The maker itself: its store, what a search knows of the weights, and its calls.
ghost use Rattle.std.specs.Prelude.{◌≡◌, IfOk, true};
ghost use Rattle.makers.specs.Covers.{is_cover, Minimal};
ghost use Rattle.makers.specs.Meanings.{fresh, Limited};

use crate::branches::Branch;
use crate::greedy::quick_cover;
use crate::lower_bounds::LowerBound;
use crate::multiples::times;
use core_store::Store;
use makers::CoverMaker;
use std::alloc::{AllocError, Global};
use terms::limits::SOFT_PLACES;
use terms::{Refusal, SoftSet};
use weights::WeightKind;

/// How many weights of a heavy number are together at least as heavy as the heaviest one: tuned on bench, no promise.
const HEAVY_TIMES: u32 = 16;

/// A cover maker for up to `SOFT_PLACES` weights.
#[derive(Debug, Drop)]
pub struct BranchAndBoundMaker<W: WeightKind> {
    pub(crate) store: Store<W>,
    /// A lower bound without loads, which knows the lightest weight. It shows too that one of this kind has a size.
    pub(crate) blank: LowerBound<W>,
    /// The numbers of which `HEAVY_TIMES` weights together are at least as heavy as the heaviest one.
    pub(crate) heavy: SoftSet,
    ghost limited: { Limited W.kind store },
}

impl<W: WeightKind> BranchAndBoundMaker<W> {
    ghost use Rattle.maker_branch.specs.BranchAndBound.{maker_meaning};

    /// A maker without weights and cores. All its memory is reserved here.
    pub fn new(alloc: Global) -> Result<Self, AllocError>
        ensures { IfOk result (λ maker. maker_meaning maker ≡ fresh SOFT_PLACES) }
    {
        Ok(BranchAndBoundMaker {
            store: Store::new(alloc, SOFT_PLACES)?,
            blank: LowerBound::new(W::zero()),
            heavy: SoftSet::empty(),
        })
    }

    /// Brings what a search knows of the weights in step with them.
    fn prepare(&mut self)
        ensures { maker_meaning self.new ≡ maker_meaning self.old }
    {
        let weights = self.store.weights();
        let lightest = weights.iter().copied().min().unwrap_or(W::zero());
        let heaviest = weights.iter().copied().max().unwrap_or(W::zero());
        let mut heavy = SoftSet::empty();
        for (number, weight) in weights.iter().enumerate() {
            if times(*weight, HEAVY_TIMES).is_none_or(|several| heaviest <= several) {
                heavy = heavy.insert(number);
            }
        }
        self.blank = LowerBound::new(lightest);
        self.heavy = heavy;
    }
}

impl<W: WeightKind> CoverMaker for BranchAndBoundMaker<W> {
    ghost use Rattle.maker_branch.specs.BranchAndBound.{maker_meaning};

    type Weight = W;

    ghost meaning = { maker_meaning };

    ghost limited = { λ maker. maker.limited };

    fn soft_count(&self) -> usize {
        self.store.soft_count()
    }

    fn core_count(&self) -> usize {
        self.store.core_count()
    }

    fn weight_refusal(&self, weight: W) -> Option<Refusal> {
        self.store.weight_refusal(weight)
    }

    fn add_weight(&mut self, weight: W) -> Result<(), Refusal> {
        self.store.add_weight(weight)?;
        self.prepare();
        Ok(())
    }

    fn add_core(&mut self, core: SoftSet) -> Result<(), Refusal> {
        self.store.add_core(core)
    }

    fn cost(&self, set: SoftSet) -> Result<W, Refusal> {
        self.store.cost(set)
    }

    /// As every cover maker, and no member can be spared. It is the greedy heuristic for set covering (Chvatal 1979), thinned.
    fn cover(&self) -> SoftSet
        ensures covers { is_cover (maker_meaning self.now) result ≡ true }
        ensures minimal { Minimal (maker_meaning self.now) result }
    {
        quick_cover(&self.store)
    }

    /// Branch and bound for weighted hitting sets, which is set covering, in the manner of Balas and Carrera (1996): a feasible
    /// solution of the dual of the covering LP, found core by core, is the lower bound of a branch, and fixes numbers by their
    /// reduced costs.
    fn least_cover(&self) -> SoftSet {
        self.narrow(&Branch::all(), self.cover())
    }
}

//! The count-through maker: it finds a least cover by trying every set.
ghost use Rattle.std.specs.Prelude.{◌≡◌, ◌+◌, ◌≤◌, length, IfOk, true};
ghost use Rattle.terms.specs.declared.limits.TheConstants.{MOST_COUNTED};
ghost use Rattle.makers.specs.Covers.{is_cover, Minimal};
ghost use Rattle.makers.specs.Meanings.{fresh, Limited};

use core_store::Store;
use makers::CoverMaker;
use std::alloc::{AllocError, Global};
use terms::limits::MOST_COUNTED;
use terms::{Refusal, SoftSet};
use weights::WeightKind;

/// A cover maker for up to `MOST_COUNTED` weights.
#[derive(Debug, Drop)]
pub struct CountThroughMaker<W: WeightKind> {
    store: Store<W>,
    ghost few: { length store.weights + store.free_softs ≤ MOST_COUNTED },
    ghost limited: { Limited W.kind store },
}

impl<W: WeightKind> CountThroughMaker<W> {
    ghost use Rattle.maker_count.specs.CountThrough.{maker_meaning};

    /// A maker without weights and cores. All its memory is reserved here.
    pub fn new(alloc: Global) -> Result<Self, AllocError>
        ensures { IfOk result (λ maker. maker_meaning maker ≡ fresh MOST_COUNTED) }
    {
        Ok(CountThroughMaker {
            store: Store::new(alloc, MOST_COUNTED)?,
        })
    }
}

impl<W: WeightKind> CoverMaker for CountThroughMaker<W> {
    ghost use Rattle.maker_count.specs.CountThrough.{maker_meaning};

    type Weight = W;

    ghost meaning = { maker_meaning };

    ghost limited = { λ maker. maker.limited };

    fn soft_count(&self) -> usize {
        self.store.soft_count()
    }

    fn core_count(&self) -> usize {
        self.store.core_count()
    }

    fn weight_refusal(&self, weight: W) -> Option<Refusal> {
        self.store.weight_refusal(weight)
    }

    fn add_weight(&mut self, weight: W) -> Result<(), Refusal> {
        self.store.add_weight(weight)
    }

    fn add_core(&mut self, core: SoftSet) -> Result<(), Refusal> {
        self.store.add_core(core)
    }

    fn cost(&self, set: SoftSet) -> Result<W, Refusal> {
        self.store.cost(set)
    }

    /// As every cover maker, and no member can be spared.
    #[tactic(auto, using(makers::proofs::CoverLaws::full_is_cover, terms::proofs::MaskLaws::subset_members, terms::proofs::MaskLaws::below_members))]
    fn cover(&self) -> SoftSet
        ensures covers { is_cover (maker_meaning self.now) result ≡ true }
        ensures minimal { Minimal (maker_meaning self.now) result }
    {
        let mut cover = SoftSet::full(self.store.soft_count());
        for number in 0..self.store.soft_count() {
            cover = self.store.spare(cover, number);
        }
        cover
    }

    #[tactic(auto, unfolding(terms::specs::Masks::below))]
    fn least_cover(&self) -> SoftSet {
        let mut least = self.cover();
        for mask in 0..1 << self.store.soft_count() {
            least = self.store.cheaper(SoftSet::from_mask(mask), least);
        }
        least
    }
}

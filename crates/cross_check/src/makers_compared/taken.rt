//! The weights and the cores that were added, kept apart from the makers, and what covers have to keep to.
use crate::faults::Fault;
use makers::CoverMaker;
use std::alloc::Global;
use terms::SoftSet;
use weights::{WeightKind, cost_of};

/// The weights, each at its number, and every core that was added, in their order.
#[derive(Drop)]
pub(crate) struct Taken<W: WeightKind> {
    pub(crate) weights: Vec<W>,
    pub(crate) cores: Vec<SoftSet>,
}

/// What the quick cover and the least cover of a maker cost.
#[derive(Clone, Copy)]
pub(crate) struct Costs<W: WeightKind> {
    pub(crate) quick: W,
    pub(crate) least: W,
}

impl<W: WeightKind> Taken<W> {
    pub(crate) fn new(alloc: Global) -> Taken<W> {
        Taken {
            weights: Vec::new(alloc),
            cores: Vec::new(alloc),
        }
    }

    /// How many cores a maker has to keep: of equal ones the first, unless another one is part of it.
    pub(crate) fn kept_count(&self) -> usize {
        let cores = self.cores.iter().enumerate();
        cores
            .filter(|(index, core)| !self.is_needless(*index, **core))
            .count()
    }

    /// Whether the core of this index says no more than another one.
    fn is_needless(&self, index: usize, core: SoftSet) -> bool {
        let mut others = self.cores.iter().enumerate();
        others.any(|(other, part)| part.is_subset(core) && (*part != core || other < index))
    }

    /// Whether the set has given numbers alone, and one of each core.
    fn is_cover(&self, set: SoftSet) -> bool {
        set.all_below(self.weights.len()) && self.cores.iter().all(|core| core.intersects(set))
    }

    /// What the members of the set weigh together, as the maker is to tell too.
    pub(crate) fn check_cost<C: CoverMaker<Weight = W>>(
        &self,
        maker: &C,
        set: SoftSet,
    ) -> Result<W, Fault> {
        let cost = cost_of(&self.weights, set).ok_or(Fault::Cost)?;
        if maker.cost(set) != Ok(cost) {
            return Err(Fault::Cost);
        }
        Ok(cost)
    }

    /// Checks both covers of the maker, of which the quick one has no member to spare and costs no less than the least one.
    pub(crate) fn check_covers<C: CoverMaker<Weight = W>>(
        &self,
        maker: &C,
    ) -> Result<Costs<W>, Fault> {
        let (quick, least) = (maker.cover(), maker.least_cover());
        if !self.is_cover(quick) || !self.is_cover(least) {
            return Err(Fault::NoCover);
        }
        let mut members = quick.members();
        if members.any(|number| self.is_cover(quick.remove(number))) {
            return Err(Fault::Spare);
        }
        let costs = Costs {
            quick: self.check_cost(maker, quick)?,
            least: self.check_cost(maker, least)?,
        };
        if costs.quick < costs.least {
            return Err(Fault::NotLeast);
        }
        Ok(costs)
    }
}

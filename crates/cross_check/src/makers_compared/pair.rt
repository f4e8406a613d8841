//! Makes the same calls on two makers and compares what they answer.
use super::taken::{Costs, Taken};
use crate::faults::{Fault, same};
use makers::CoverMaker;
use std::alloc::Global;
use std::{fmt, io};
use terms::{Refusal, SoftSet};

/// Two makers, of which the first is plainly right, and the weights and cores that both have taken.
#[derive(Drop)]
pub(crate) struct Pair<R: CoverMaker, T: CoverMaker<Weight = R::Weight>> {
    pub(crate) reference: R,
    pub(crate) tested: T,
    pub(crate) taken: Taken<R::Weight>,
}

impl<R: CoverMaker, T: CoverMaker<Weight = R::Weight>> Pair<R, T>
where
    R::Weight: fmt::Display,
{
    pub(crate) fn new(alloc: Global, reference: R, tested: T) -> Pair<R, T> {
        Pair {
            reference,
            tested,
            taken: Taken::new(alloc),
        }
    }

    /// Adds the weight to both, or tells why both refuse it.
    pub(crate) fn add_weight(&mut self, weight: R::Weight) -> Result<Option<Refusal>, Fault> {
        let told = self.reference.weight_refusal(weight);
        same(told, self.tested.weight_refusal(weight), Fault::Refusals)?;
        let refusal = self.reference.add_weight(weight).err();
        same(
            refusal,
            self.tested.add_weight(weight).err(),
            Fault::Refusals,
        )?;
        same(told, refusal, Fault::ToldOtherwise)?;
        if refusal.is_none() {
            self.taken.weights.push(weight)?;
        }
        self.compare_counts()?;
        Ok(refusal)
    }

    /// Adds the core to both, or tells why both refuse it.
    pub(crate) fn add_core(&mut self, core: SoftSet) -> Result<Option<Refusal>, Fault> {
        let refusal = self.reference.add_core(core).err();
        same(refusal, self.tested.add_core(core).err(), Fault::Refusals)?;
        if refusal.is_none() {
            self.taken.cores.push(core)?;
        }
        self.compare_counts()?;
        Ok(refusal)
    }

    /// Both have the weights that were added, and keep as many of the cores as they should.
    pub(crate) fn compare_counts(&self) -> Result<(), Fault> {
        let softs = self.taken.weights.len();
        same(self.reference.soft_count(), softs, Fault::SoftCounts)?;
        same(self.tested.soft_count(), softs, Fault::SoftCounts)?;
        let kept = self.taken.kept_count();
        same(self.reference.core_count(), kept, Fault::CoreCounts)?;
        same(self.tested.core_count(), kept, Fault::CoreCounts)?;
        Ok(())
    }

    /// Asks both for the cost of the set, and tells why both refuse it if they do.
    pub(crate) fn compare_cost(&self, set: SoftSet) -> Result<Option<Refusal>, Fault> {
        let refusal = self.reference.cost(set).err();
        same(refusal, self.tested.cost(set).err(), Fault::Refusals)?;
        if refusal.is_none() {
            self.taken.check_cost(&self.reference, set)?;
            self.taken.check_cost(&self.tested, set)?;
        }
        Ok(refusal)
    }

    /// The costs of the covers of both makers, of which the least ones cost the same.
    pub(crate) fn compare_covers(&self) -> Result<(Costs<R::Weight>, Costs<R::Weight>), Fault> {
        let reference = self.taken.check_covers(&self.reference)?;
        let tested = self.taken.check_covers(&self.tested)?;
        if reference.least != tested.least {
            return Err(Fault::LeastCosts);
        }
        Ok((reference, tested))
    }

    /// Shows what both makers have taken, and the quick and the least cover of each.
    pub(crate) fn show(&self, rt: &impl Print) -> io::Result<()> {
        for weight in &self.taken.weights {
            println!(rt; "  Weight {weight}.")?;
        }
        for core in &self.taken.cores {
            println!(rt; "  Core {core:?}.")?;
        }
        let (quick, least) = (self.reference.cover(), self.reference.least_cover());
        println!(rt; "  Covers of the count-through maker: {quick:?}, {least:?}.")?;
        let (quick, least) = (self.tested.cover(), self.tested.least_cover());
        println!(rt; "  Covers of the branch-and-bound maker: {quick:?}, {least:?}.")
    }
}

//! The trait `CoverMaker`. Whatever stands behind it, its calls are told by its meaning alone.
ghost use Rattle.std.specs.Prelude.{◌≡◌, true, length, IfOk};
ghost use Rattle.std.specs.Result.{result_err};
ghost use Rattle.terms.specs.Earliest.{Changes};
ghost use Rattle.makers.specs.Meanings.{MakerMeaning, Limited, with_weight, with_core};
ghost use Rattle.makers.specs.Covers.{Costs, is_cover, Least, AlsoMeets};
ghost use Rattle.makers.specs.Refused.{weight_refused, core_refused, cost_refused};

use terms::{Refusal, SoftSet};
use weights::WeightKind;

/// Keeps weights and cores, and finds out which soft clauses are best given up.
/// A refused call changes nothing, and is refused for the earliest reason that fits.
pub trait CoverMaker {
    type Weight: WeightKind;

    ghost meaning: { Self → MakerMeaning Self.Weight };

    /// The number of weights.
    fn soft_count(&self) -> usize
        ensures { result ≡ length (meaning self.now).weights };

    /// The number of kept cores.
    fn core_count(&self) -> usize
        ensures { result ≡ length (meaning self.now).cores };

    /// Why adding the weight would be refused, if it would.
    fn weight_refusal(&self, weight: Self::Weight) -> Option<Refusal>
        ensures { result ≡ weight_refused Self.Weight.kind (meaning self.now) weight };

    /// Puts the weight last.
    fn add_weight(&mut self, weight: Self::Weight) -> Result<(), Refusal>
        ensures refusal { result_err result ≡ weight_refused Self.Weight.kind (meaning self.old) weight }
        ensures meaning { Changes result (λ m. with_weight m weight) (meaning self.old) (meaning self.new) };

    /// Keeps the core, unless a kept one is part of it, and drops the kept ones that it is part of.
    fn add_core(&mut self, core: SoftSet) -> Result<(), Refusal>
        ensures refusal { result_err result ≡ core_refused (meaning self.old) core }
        ensures meaning { Changes result (λ m. with_core m core) (meaning self.old) (meaning self.new) }
        ensures covers { IfOk result (λ _. AlsoMeets (meaning self.old) core (meaning self.new)) };

    /// What the members of the set weigh together.
    fn cost(&self, set: SoftSet) -> Result<Self::Weight, Refusal>
        ensures refusal { result_err result ≡ cost_refused (meaning self.now) set }
        ensures exact { IfOk result (Costs Self.Weight.kind (meaning self.now) set) };

    /// Some cover, quickly.
    fn cover(&self) -> SoftSet
        ensures covers { is_cover (meaning self.now) result ≡ true };

    /// A cover that none is cheaper than.
    fn least_cover(&self) -> SoftSet
        ensures { Least Self.Weight.kind (meaning self.now) result };

    ghost limited: { (x : Self) → Limited Self.Weight.kind (meaning x) };
}

//! What a cover maker keeps, with the rules by which weights and cores are added.
ghost use Rattle.std.specs.Prelude.{◌≡◌, ℕ, ◌≤◌, not, min, if◌then◌else◌, length, Some, IfOk, IsTrue};
ghost use Rattle.std.specs.List.{list_all};
ghost use Rattle.std.specs.Result.{result_err};
ghost use Rattle.std.specs.Vec.{vec_len, vec_capacity};
ghost use Rattle.terms.specs.Masks.{subset, intersect};
ghost use Rattle.terms.specs.Earliest.{Changes};
ghost use Rattle.weights.specs.Costs.{cost};
ghost use Rattle.weights.specs.Kinds.{Totals};
ghost use Rattle.makers.specs.Meanings.{fresh, with_weight, with_core, has_part, staying, Limited};
ghost use Rattle.makers.specs.Covers.{is_cover, AlsoMeets};
ghost use Rattle.makers.specs.Refused.{weight_refused, no_core_place, core_refused, cost_refused};
ghost use Rattle.core_store.specs.BetterCovers.{cheaper_of, NoDearer, Smaller, Spared};

use std::alloc::{AllocError, Global};
use std::marker::Model;
use terms::limits::{CORE_PLACES, SOFT_PLACES};
use terms::{Part, Refusal, SoftSet};
use weights::{WeightKind, cost_of};

/// The weights and the kept cores of a cover maker.
#[derive(Debug, Drop)]
pub struct Store<W: WeightKind> {
    weights: Vec<W>,
    total: W,
    cores: Vec<SoftSet>,
    /// How many weights there can be.
    places: usize,
}

impl<W: WeightKind> Model for Store<W> {
    ghost use Rattle.makers.specs.Meanings.{MakerMeaning};

    ghost Value = { MakerMeaning W };

    ghost use Rattle.core_store.specs.Store.{meaning_of, IsValid};

    ghost view = { meaning_of };

    ghost invariant = { IsValid W.kind };
}

impl<W: WeightKind> Store<W> {
    ghost use Rattle.core_store.specs.Store.{total_with};

    /// A store without weights and cores, with so many soft places, `SOFT_PLACES` at most. All its memory is reserved here.
    pub fn new(alloc: Global, places: usize) -> Result<Self, AllocError>
        ensures meaning { IfOk result (λ store. store ≡ fresh (min places SOFT_PLACES)) }
        ensures limited { IfOk result (Limited W.kind) }
    {
        let places = places.min(SOFT_PLACES);
        Ok(Store {
            weights: Vec::with_capacity(alloc, places)?,
            total: W::zero(),
            cores: Vec::with_capacity(alloc, CORE_PLACES)?,
            places,
        })
    }

    /// The number of weights.
    pub fn soft_count(&self) -> usize
        ensures { result ≡ length self.now.weights }
    {
        self.weights.len()
    }

    /// The number of kept cores.
    pub fn core_count(&self) -> usize
        ensures { result ≡ length self.now.cores }
    {
        self.cores.len()
    }

    /// The weights, each at the index of its number.
    pub fn weights(&self) -> &[W]
        ensures { result.now ≡ self.now.weights }
    {
        &self.weights
    }

    /// The kept cores, in the order in which they came.
    pub fn cores(&self) -> &[SoftSet]
        ensures { result.now ≡ self.now.cores }
    {
        &self.cores
    }

    /// Why adding the weight would be refused, if it would.
    pub fn weight_refusal(&self, weight: W) -> Option<Refusal>
        ensures { result ≡ weight_refused W.kind self.now weight }
    {
        self.checked_total(weight).err()
    }

    /// Puts the weight last.
    #[tactic(auto, using(makers::proofs::MakerLaws::limited_weight))]
    pub fn add_weight(&mut self, weight: W) -> Result<(), Refusal>
        ensures refusal { result_err result ≡ weight_refused W.kind self.old weight }
        ensures meaning { Changes result (λ m. with_weight m weight) self.old self.new }
        ensures limited { Limited W.kind self.new }
    {
        self.total = self.checked_total(weight)?;
        self.weights.push_reserved(weight);
        Ok(())
    }

    /// The total of all weights with one more, unless that one is refused.
    fn checked_total(&self, weight: W) -> Result<W, Refusal>
        ensures refusal { result_err result ≡ weight_refused W.kind self.now weight }
        ensures total { IfOk result (λ w. Totals W.kind (total_with W.kind self.now weight) (Some w)) }
    {
        if weight <= W::zero() {
            return Err(Refusal::ZeroWeight);
        }
        if self.weights.len() == self.places {
            return Err(Refusal::NoSoftPlace(Part::CoverMaker));
        }
        self.total_with(weight).ok_or(Refusal::TotalNotHeld)
    }

    /// The total of all weights with one more, if it can be held.
    #[tactic(auto, using(weights::proofs::TotalLaws::total_push))]
    fn total_with(&self, weight: W) -> Option<W>
        ensures { Totals W.kind (total_with W.kind self.now weight) result }
    {
        self.total.sum(weight)
    }

    /// Keeps the core, unless a kept one is part of it, and drops the kept ones that it is part of.
    #[tactic(auto, using(makers::proofs::MakerLaws::apart_kept, makers::proofs::MakerLaws::proper_kept, makers::proofs::CoreLaws::covered_kept, makers::proofs::CoreLaws::covered_part))]
    pub fn add_core(&mut self, core: SoftSet) -> Result<(), Refusal>
        ensures refusal { result_err result ≡ core_refused self.old core }
        ensures meaning { Changes result (λ m. with_core m core) self.old self.new }
        ensures limited { Limited W.kind self.new }
        ensures covers { IfOk result (λ _. AlsoMeets self.old core self.new) }
    {
        self.check_core(core)?;
        if !self.has_part(core) {
            drop_containing(&mut self.cores, core);
            self.cores.push_reserved(core);
        }
        Ok(())
    }

    /// Refuses the core where it cannot be added.
    fn check_core(&self, core: SoftSet) -> Result<(), Refusal>
        ensures { result_err result ≡ core_refused self.now core }
    {
        if !core.all_below(self.weights.len()) {
            Err(Refusal::UnknownSoft)
        } else if core.is_empty() {
            Err(Refusal::EmptyCore)
        } else if self.lacks_place(core) {
            Err(Refusal::NoCorePlace)
        } else {
            Ok(())
        }
    }

    /// Whether the core has to take a place, and none is free with those that stay.
    fn lacks_place(&self, core: SoftSet) -> bool
        ensures { result ≡ no_core_place self.now core }
    {
        !self.has_part(core) && self.count_staying(core) >= CORE_PLACES
    }

    /// Whether a kept core is part of this one.
    fn has_part(&self, core: SoftSet) -> bool
        ensures { result ≡ has_part self.now.cores core }
    {
        self.cores.iter().any(|kept| kept.is_subset(core))
    }

    /// How many kept cores do not contain this one.
    fn count_staying(&self, core: SoftSet) -> usize
        ensures { result ≡ length (staying core self.now.cores) }
    {
        self.cores.iter().filter(|kept| stays(**kept, core)).count()
    }

    /// What the members of the set weigh together. Numbers without a weight add nothing.
    #[tactic(auto, using(weights::proofs::TotalLaws::cost_held))]
    pub fn sum(&self, set: SoftSet) -> W
        ensures { W.kind.value result ≡ cost W.kind self.now.weights set }
    {
        cost_of(&self.weights, set).unwrap()
    }

    /// What the members of the set weigh together.
    pub fn cost(&self, set: SoftSet) -> Result<W, Refusal>
        ensures refusal { result_err result ≡ cost_refused self.now set }
        ensures exact { IfOk result (λ w. W.kind.value w ≡ cost W.kind self.now.weights set) }
    {
        if !set.all_below(self.weights.len()) {
            return Err(Refusal::UnknownSoft);
        }
        Ok(self.sum(set))
    }

    /// Whether the set is a cover.
    pub fn is_cover(&self, set: SoftSet) -> bool
        ensures { result ≡ is_cover self.now set }
    {
        set.all_below(self.weights.len()) && self.is_met(set)
    }

    /// Whether each kept core has a member in common with the set.
    fn is_met(&self, set: SoftSet) -> bool
        ensures { result ≡ list_all (intersect set) self.now.cores }
    {
        self.cores.iter().all(|core| set.intersects(*core))
    }

    /// The cover without the number, where the rest is one; otherwise the cover.
    #[tactic(auto, using(makers::proofs::CoverLaws::needs, terms::proofs::MaskLaws::subset_members))]
    pub fn spare(&self, cover: SoftSet, number: usize) -> SoftSet
        ensures value { Spared self.now cover number result }
        ensures smaller { IsTrue (is_cover self.now cover) → Smaller self.now cover number result }
    {
        self.cover_or(cover.remove(number), cover)
    }

    /// The set, where it is a cover; otherwise the other.
    fn cover_or(&self, set: SoftSet, other: SoftSet) -> SoftSet
        ensures { result ≡ (if is_cover self.now set then set else other) }
    {
        if self.is_cover(set) { set } else { other }
    }

    /// The set, where it is a cover too and costs less; otherwise the cover.
    pub fn cheaper(&self, set: SoftSet, cover: SoftSet) -> SoftSet
        ensures value { result ≡ cheaper_of W.kind self.now set cover }
        ensures no_dearer { NoDearer W.kind self.now set cover result }
    {
        if self.is_cover(set) && self.sum(set) < self.sum(cover) {
            set
        } else {
            cover
        }
    }
}

/// Drops the cores that contain this one.
fn drop_containing(cores: &mut Vec<SoftSet>, core: SoftSet)
    ensures cores { cores.new.items ≡ staying core cores.old.items }
    ensures bound { vec_len cores.new ≤ vec_len cores.old }
    ensures capacity { vec_capacity cores.new ≡ vec_capacity cores.old }
{
    cores.retain(|kept| stays(*kept, core));
}

/// Whether a kept core stays when this one comes, as it does not contain it.
fn stays(kept: SoftSet, core: SoftSet) -> bool
    ensures { result ≡ not (subset core kept) }
{
    !core.is_subset(kept)
}

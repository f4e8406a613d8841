//! Loads on soft numbers, and what they say of covers.
ghost use Rattle.std.specs.Prelude.{◌≡◌, ℕ, Bool, true, not, List, IfSome};
ghost use Rattle.terms.specs.Masks.{intersect};
ghost use Rattle.maker_branch.specs.Loads.{AllHave, AllMeet, BearFor, BearIn, Borne, Raised, StillBear};

use crate::branches::Branch;
use core_store::Store;
use terms::SoftSet;
use terms::limits::SOFT_PLACES;
use weights::WeightKind;

/// A load on each soft number, no more than its weight. A core puts an amount on all numbers that are left of it, of which every
/// cover of the branch has one: so such a cover costs at least what the cores put on, each of them counted once. The amounts
/// are a feasible solution of the dual of the covering LP, and the total is what it is worth.
#[derive(Clone, Copy, Debug)]
pub(crate) struct Loads<W: WeightKind> {
    loads: [W; SOFT_PLACES],
    /// What was put on, counted once for each core.
    total: W,
    /// Numbers that cannot bear the lightest weight more.
    full: SoftSet,
    /// The lightest weight of the store.
    pub(crate) lightest: W,
}

impl<W: WeightKind> Loads<W> {
    /// No loads yet.
    pub(crate) fn new(lightest: W) -> Loads<W>
        ensures { (weights : List W) → (these : ℕ → Bool) → BearFor W.kind weights these result }
    {
        Loads {
            loads: [W::zero(); SOFT_PLACES],
            total: W::zero(),
            full: SoftSet::empty(),
            lightest,
        }
    }

    /// On each chosen number its whole weight.
    pub(crate) fn of_chosen(store: &Store<W>, branch: &Branch, lightest: W) -> Loads<W>
        ensures { BearIn W.kind store.now branch.now result }
    {
        let mut loads = Loads::new(lightest);
        for number in branch.chosen.members() {
            loads.choose(store, number);
        }
        loads
    }

    /// Puts its whole weight on the number, which each of these covers has.
    pub(crate) fn choose(&mut self, store: &Store<W>, number: usize)
        ensures { StillBear W.kind store.now.weights (AllHave number) self.old self.new }
    {
        let alone = SoftSet::empty().insert(number);
        if let Some(weight) = store.weights().get(number) {
            // No set has a number from `SOFT_PLACES` on.
            if alone.has(number) {
                self.raise(store, alone, *weight);
            }
        }
    }

    /// Whether the total is the best cost, or more.
    pub(crate) fn reaches(&self, best_cost: W) -> bool
        ensures { result ≡ W.kind.le (W.kind.value best_cost) (W.kind.value self.now.total) }
    {
        best_cost <= self.total
    }

    /// Whether no number of the set is full.
    pub(crate) fn has_room(&self, set: SoftSet) -> bool
        ensures { result ≡ not (intersect set self.now.full) }
    {
        !set.intersects(self.full)
    }

    /// The heaviest weight that can be put on all numbers of the set, and zero where there is none.
    pub(crate) fn most_for(&self, store: &Store<W>, set: SoftSet) -> W {
        // They bear no more than the lightest of them weighs, nor more than what was found to be too much.
        let mut limit = lightest_of(store, set);
        if self.can_bear(store, set, limit) {
            return limit;
        }
        let mut most = W::zero();
        for weight in store.weights() {
            if *weight > most && *weight < limit {
                if self.can_bear(store, set, *weight) {
                    most = *weight;
                } else {
                    limit = *weight;
                }
            }
        }
        most
    }

    /// Whether each number of the set can bear the amount more.
    fn can_bear(&self, store: &Store<W>, set: SoftSet, amount: W) -> bool {
        set.members()
            .all(|number| self.raised(store, number, amount).is_some())
    }

    /// Whether it seems that covers with this number cost as much as the best: the total and what the number can still bear do.
    pub(crate) fn seems_dear(&self, store: &Store<W>, number: usize, best_cost: W) -> bool {
        let (Some(load), Some(weight)) = (self.loads.get(number), store.weights().get(number))
        else {
            return false;
        };
        match (self.total.sum(*weight), best_cost.sum(*load)) {
            (Some(total), Some(best_cost)) => best_cost <= total,
            _ => false,
        }
    }

    /// Puts the amount on each number of the set, of which each of these covers has one, and counts it once. Where a number
    /// cannot bear it, nothing is counted, and the others may keep it.
    pub(crate) fn raise(&mut self, store: &Store<W>, set: SoftSet, amount: W)
        ensures { StillBear W.kind store.now.weights (AllMeet set) self.old self.new }
    {
        for number in set.members() {
            if !self.bear(store, number, amount) {
                return;
            }
        }
        if let Some(total) = self.total.sum(amount) {
            self.total = total;
        }
    }

    /// Puts the amount on the number, if it can bear that.
    #[tactic(auto, using(crate::proofs::LoadLaws::not_borne))]
    fn bear(&mut self, store: &Store<W>, number: usize, amount: W) -> bool
        ensures total { self.new.total ≡ self.old.total }
        ensures loads { Borne W.kind store.now.weights number amount result self.old.loads self.new.loads }
    {
        let Some(load) = self.raised(store, number, amount) else {
            return false;
        };
        self.loads[number] = load;
        self.note_if_full(store, number);
        true
    }

    /// Notes the number as one that can bear no weight more, if it is one.
    fn note_if_full(&mut self, store: &Store<W>, number: usize)
        ensures loads { self.new.loads ≡ self.old.loads }
        ensures total { self.new.total ≡ self.old.total }
    {
        if self.raised(store, number, self.lightest).is_none() {
            self.full = self.full.insert(number);
        }
    }

    /// The load of the number with the amount more, if it can bear that.
    #[tactic(auto, using(crate::proofs::LoadLaws::value_at_index))]
    fn raised(&self, store: &Store<W>, number: usize, amount: W) -> Option<W>
        ensures { IfSome result (Raised W.kind store.now.weights self.now.loads number amount) }
    {
        let load = self.loads.get(number)?.sum(amount)?;
        at_most(load, *store.weights().get(number)?)
    }
}

/// The load, if it is no more than the weight.
fn at_most<W: WeightKind>(load: W, weight: W) -> Option<W>
    ensures { IfSome result (λ x. (x ≡ load) × (W.kind.le (W.kind.value load) (W.kind.value weight) ≡ true)) }
{
    if load <= weight { Some(load) } else { None }
}

/// The lightest weight of the numbers of the set, and zero where they have none.
fn lightest_of<W: WeightKind>(store: &Store<W>, set: SoftSet) -> W {
    set.members()
        .filter_map(|number| store.weights().get(number).copied())
        .min()
        .unwrap_or(W::zero())
}

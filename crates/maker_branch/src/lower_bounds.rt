//! Lower bounds of what the covers of a branch cost.
ghost use Rattle.std.specs.Prelude.{◌≡◌, IfSome, IsTrue};
ghost use Rattle.maker_branch.specs.Branches.{in_branch};
ghost use Rattle.maker_branch.specs.Loads.{AllMeet, BearIn, KeepBearing};
ghost use Rattle.maker_branch.specs.LowerBounds.{DearWith};

use crate::branches::Branch;
use crate::loads::Loads;
use crate::order::Order;
use core_store::Store;
use terms::SoftSet;
use terms::limits::CORE_PLACES;
use weights::WeightKind;

/// How many amounts are kept: tuned on bench, no promise.
const MOST_RAISES: usize = 64;

/// An amount that was put on what was left of the core with this index.
#[derive(Clone, Copy, Debug)]
pub(crate) struct Raise<W: WeightKind> {
    pub(crate) index: usize,
    pub(crate) amount: W,
}

/// Loads of a branch, whose total is at most what each of its covers costs, and the amounts in the order in which they came.
#[derive(Debug, Drop)]
pub(crate) struct LowerBound<W: WeightKind> {
    /// The loads of the chosen numbers alone.
    pub(crate) base: Loads<W>,
    /// The loads of the cores too.
    pub(crate) loads: Loads<W>,
    /// The first amounts, as many as there is room for.
    raises: [Raise<W>; MOST_RAISES],
    /// How many of them there are.
    count: usize,
}

impl<W: WeightKind> LowerBound<W> {
    /// No loads yet.
    pub(crate) fn new(lightest: W) -> LowerBound<W>
        ensures { result.count ≡ 0 }
    {
        let none = Raise {
            index: 0,
            amount: W::zero(),
        };
        let base = Loads::new(lightest);
        LowerBound {
            base,
            loads: base,
            raises: [none; MOST_RAISES],
            count: 0,
        }
    }

    /// The lower bound of a branch. It goes up only while it is below the best cost.
    pub(crate) fn of(
        store: &Store<W>,
        branch: &Branch,
        base: Loads<W>,
        mut order: Order,
        best_cost: W,
    ) -> LowerBound<W>
        requires { BearIn W.kind store.now branch.now base }
        ensures base { result.base ≡ base }
        ensures loads { BearIn W.kind store.now branch.now result.loads }
    {
        let mut bound = LowerBound::new(base.lightest);
        bound.base = base;
        bound.loads = base;
        for _ in 0..CORE_PLACES {
            if bound.loads.reaches(best_cost) {
                break;
            }
            let Some(index) = order.take_first() else {
                break;
            };
            bound.put_on(store, branch, index);
        }
        bound
    }

    /// Puts on what is left of the core the heaviest weight that it can bear.
    fn put_on(&mut self, store: &Store<W>, branch: &Branch, index: usize)
        ensures base { self.new.base ≡ self.old.base }
        ensures loads { KeepBearing W.kind store.now branch.now self.old.loads self.new.loads }
    {
        let Some(rest) = left_of(store, branch, index) else {
            return;
        };
        if self.loads.has_room(rest) {
            let amount = self.loads.most_for(store, rest);
            self.loads.raise(store, rest, amount);
            self.keep(Raise { index, amount });
        }
    }

    /// Keeps the raise, while there is room.
    fn keep(&mut self, raise: Raise<W>)
        ensures base { self.new.base ≡ self.old.base }
        ensures loads { self.new.loads ≡ self.old.loads }
    {
        if let Some(slot) = self.raises.get_mut(self.count) {
            *slot = raise;
            self.count += 1;
        }
    }

    /// Whether covers of the branch that have this number cost as much as the best: the same raises show it, without the cores
    /// that have the number.
    pub(crate) fn is_dear_with(
        &self,
        store: &Store<W>,
        branch: &Branch,
        number: usize,
        best_cost: W,
    ) -> bool
        requires { BearIn W.kind store.now branch.now self.now.base }
        ensures { IsTrue result → DearWith W.kind store.now branch.now number best_cost }
    {
        let mut loads = self.base;
        loads.choose(store, number);
        for raise in self.raises.iter().take(self.count) {
            if let Some(rest) = left_of(store, branch, raise.index) {
                if !rest.has(number) {
                    loads.raise(store, rest, raise.amount);
                }
            }
        }
        loads.reaches(best_cost)
    }
}

/// What is left of the core with this index: each cover of the branch has some of it.
#[tactic(auto, using(crate::proofs::BranchLaws::left_met))]
fn left_of<W: WeightKind>(store: &Store<W>, branch: &Branch, index: usize) -> Option<SoftSet>
    ensures { IfSome result (λ rest. AllMeet rest (in_branch store.now branch.now)) }
{
    Some(store.cores().get(index)?.minus(branch.out))
}

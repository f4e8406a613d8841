//! Narrowing a search for a least cover: to one branch and then to the other.
ghost use Rattle.std.specs.Prelude.{◌≡◌, ◌-◌, ◌^◌, true, IfSome, IsNone};
ghost use Rattle.terms.specs.Masks.{size};
ghost use Rattle.makers.specs.Covers.{is_cover};
ghost use Rattle.maker_branch.specs.Branches.{in_branch, Forced, NoneOf};
ghost use Rattle.maker_branch.specs.Loads.{BearIn};
ghost use Rattle.maker_branch.specs.Narrowing.{Best, LeftOut};
ghost use Rattle.maker_branch.specs.Scores.{is_left};

use crate::branch_and_bound::BranchAndBoundMaker;
use crate::branches::Branch;
use crate::loads::Loads;
use crate::lower_bounds::LowerBound;
use crate::order::Order;
use crate::scores::Scores;
use terms::SoftSet;
use terms::limits::SOFT_PLACES;
use weights::WeightKind;

/// From how many numbers on what is left of a core counts least: tuned on bench, no promise.
const LONG_CORE: usize = 8;

impl<W: WeightKind> BranchAndBoundMaker<W> {
    /// A cover that costs no more than the best in hand, and no more than any of the branch.
    #[cycle(narrowing)]
    pub(crate) fn narrow(&self, branch: &Branch, best: SoftSet) -> SoftSet
        requires cover { is_cover self.now.store best ≡ true }
        ensures { Best W.kind self.now.store branch.now best result }
    {
        match self.with_forced(branch) {
            Some(forced) => self.cut(&forced, best),
            None => best,
        }
    }

    /// The same, once the forced numbers are chosen. The branch is given up where its lower bound reaches the best cost.
    #[cycle(narrowing)]
    fn cut(&self, branch: &Branch, best: SoftSet) -> SoftSet
        requires cover { is_cover self.now.store best ≡ true }
        ensures { Best W.kind self.now.store branch.now best result }
    {
        let best_cost = self.store.sum(best);
        let base = Loads::of_chosen(&self.store, branch, self.blank.base.lightest);
        if base.reaches(best_cost) {
            return best;
        }
        if self.store.is_cover(branch.chosen) {
            return self.store.cheaper(branch.chosen, best);
        }
        let scores = Scores::of(&self.store, branch, worth);
        let order = Order::of(&self.store, branch, &scores, self.heavy);
        let bound = LowerBound::of(&self.store, branch, base, order, best_cost);
        if bound.loads.reaches(best_cost) {
            return best;
        }
        let narrower = self.without_dear(branch, &bound, scores.left, best_cost);
        if !narrower.out.is_subset(branch.out) {
            return self.narrow(&narrower, best);
        }
        match scores.best() {
            Some(number) => self.split(number, branch, best),
            None => best,
        }
    }

    /// The same, from the covers with the number and then from those without it.
    #[cycle(narrowing)]
    fn split(&self, number: usize, branch: &Branch, best: SoftSet) -> SoftSet
        requires number { is_left self.now.store branch.now number ≡ true }
        requires cover { is_cover self.now.store best ≡ true }
        ensures { Best W.kind self.now.store branch.now best result }
    {
        let with = self.narrow(&branch.with(number), best);
        self.narrow(&branch.without(number), with)
    }

    /// The branch with each number chosen that is the last one left of an open core, as every cover of the branch has it. None
    /// where a core has none left.
    fn with_forced(&self, branch: &Branch) -> Option<Branch>
        ensures none { IsNone result → NoneOf (in_branch self.now.store branch.now) }
        ensures forced { IfSome result (Forced (in_branch self.now.store branch.now) branch.now) }
    {
        let mut forced = *branch;
        for core in self.store.cores() {
            forced = forced.with_last(*core)?;
        }
        Some(forced)
    }

    /// The branch without the dear numbers, those of `left` of which the lower bound shows that covers with them cost as much as
    /// the best.
    fn without_dear(
        &self,
        branch: &Branch,
        bound: &LowerBound<W>,
        left: SoftSet,
        best_cost: W,
    ) -> Branch
        requires { BearIn W.kind self.now.store branch.now bound.now.base }
        ensures { LeftOut W.kind self.now.store branch.now (W.kind.value best_cost) result }
    {
        let mut narrower = *branch;
        for number in left.members() {
            if bound.loads.seems_dear(&self.store, number, best_cost)
                && bound.is_dear_with(&self.store, &narrower, number, best_cost)
            {
                narrower = narrower.without(number);
            }
        }
        narrower
    }
}

/// What is left of a core counts the more the fewer numbers it has.
fn worth(rest: SoftSet) -> u32
    ensures { result ≡ 2 ^ (LONG_CORE - size SOFT_PLACES rest) }
{
    1 << LONG_CORE.saturating_sub(rest.len())
}

//! How much each soft number would do.
ghost use Rattle.std.specs.Prelude.{◌≡◌, ℕ, ◌≤◌, true, ◌||◌, IfSome, IsNone, slice_index_or};
ghost use Rattle.terms.specs.Masks.{member};
ghost use Rattle.maker_branch.specs.Branches.{NoneOf};
ghost use Rattle.maker_branch.specs.Scores.{is_left, Highest};

use crate::branches::Branch;
use core_store::Store;
use terms::SoftSet;
use terms::limits::SOFT_PLACES;
use weights::WeightKind;

/// A score for each soft number.
#[derive(Clone, Copy, Debug)]
pub(crate) struct Scores {
    scores: [u32; SOFT_PLACES],
    /// The numbers with a score.
    pub(crate) left: SoftSet,
}

impl Scores {
    fn new() -> Scores
        ensures { NoneOf (member result.left) }
    {
        Scores {
            scores: [0; SOFT_PLACES],
            left: SoftSet::empty(),
        }
    }

    /// Scores from the cores that the chosen numbers do not meet, without the numbers that were left out.
    /// What is left of a core is worth so much to each of its numbers.
    pub(crate) fn of<W: WeightKind, F: Fn(SoftSet) -> u32>(
        store: &Store<W>,
        branch: &Branch,
        worth: F,
    ) -> Scores
        requires { F.IsAlwaysCallable worth }
        ensures { (k : ℕ) → member result.left k ≡ is_left store.now branch.now k }
    {
        let mut scores = Scores::new();
        for core in store.cores() {
            if !core.intersects(branch.chosen) {
                let rest = core.minus(branch.out);
                scores.add(rest, worth(rest));
            }
        }
        scores
    }

    /// Adds the worth to the score of each number of the set.
    fn add(&mut self, set: SoftSet, worth: u32)
        ensures { (k : ℕ) → member self.new.left k ≡ (member self.old.left k || member set k) }
    {
        for number in set.members() {
            self.scores[number] = self.scores[number].saturating_add(worth);
        }
        self.left = self.left.union(set);
    }

    /// The score of the number; numbers from `SOFT_PLACES` on have none.
    pub(crate) fn of_number(&self, number: usize) -> u32
        ensures { result ≡ slice_index_or self.now.scores number 0 }
    {
        self.scores.get(number).copied().unwrap_or(0)
    }

    /// The number with the highest score.
    pub(crate) fn best(&self) -> Option<usize>
        ensures none { IsNone result → NoneOf (member self.now.left) }
        ensures member { IfSome result (λ number. member self.now.left number ≡ true) }
        ensures most { IfSome result (Highest self.now.scores self.now.left) }
    {
        let mut best = self.left.first()?;
        for number in self.left.members() {
            if self.of_number(number) > self.of_number(best) {
                best = number;
            }
        }
        Some(best)
    }
}

//! A cover that is found quickly.
ghost use Rattle.std.specs.Prelude.{◌≡◌, ℕ, ◌<◌, true, false, IfSome, IsNone, IsTrue, length};
ghost use Rattle.terms.specs.Masks.{member, subset};
ghost use Rattle.makers.specs.Covers.{is_cover, Minimal};
ghost use Rattle.makers.specs.Meanings.{Limited};
ghost use Rattle.maker_branch.specs.Branches.{NoneOf};
ghost use Rattle.maker_branch.specs.Scores.{is_left};

use crate::branches::Branch;
use crate::multiples::times;
use crate::scores::Scores;
use core_store::Store;
use terms::SoftSet;
use weights::WeightKind;

/// The cheaper of two covers, of which no member can be spared: one of numbers that meet many cores for their weight,
/// and one of what is left of all numbers.
#[tactic(auto, using(makers::proofs::CoverLaws::full_is_cover))]
pub(crate) fn quick_cover<W: WeightKind>(store: &Store<W>) -> SoftSet
    requires { Limited W.kind store.now }
    ensures covers { is_cover store.now result ≡ true }
    ensures minimal { Minimal store.now result }
{
    let full = SoftSet::full(store.soft_count());
    let first = thinned(store, greedy(store));
    store.cheaper(thinned(store, full), first)
}

/// A cover that is part of this one, and of which no member can be spared. The heaviest members are spared first.
#[tactic(auto, using(terms::proofs::MaskLaws::subset_members))]
fn thinned<W: WeightKind>(store: &Store<W>, cover: SoftSet) -> SoftSet
    requires { is_cover store.now cover ≡ true }
    ensures covers { is_cover store.now result ≡ true }
    ensures within { subset result cover ≡ true }
    ensures minimal { Minimal store.now result }
{
    let mut thinned = cover;
    let mut left = cover;
    while let Some(number) = heaviest(store.weights(), left) {
        left = left.remove(number);
        thinned = store.spare(thinned, number);
    }
    thinned
}

/// The heaviest number of the set.
fn heaviest<W: WeightKind>(weights: &[W], set: SoftSet) -> Option<usize>
    ensures none { IsNone result → NoneOf (member set) }
    ensures member { IfSome result (λ number. member set number ≡ true) }
{
    let mut heaviest = set.first()?;
    for number in set.members() {
        if weights.get(number) > weights.get(heaviest) {
            heaviest = number;
        }
    }
    Some(heaviest)
}

/// Takes one number after another, each time the one that meets most cores for its weight, until all cores are met.
#[tactic(auto, using(terms::proofs::MaskLaws::below_members))]
fn greedy<W: WeightKind>(store: &Store<W>) -> SoftSet
    requires { Limited W.kind store.now }
    ensures { is_cover store.now result ≡ true }
{
    let mut branch = Branch::all();
    while let Some(number) = most_worth(store, &branch) {
        branch = branch.with(number);
    }
    branch.chosen
}

/// The number that meets most open cores for its weight.
fn most_worth<W: WeightKind>(store: &Store<W>, branch: &Branch) -> Option<usize>
    ensures none { IsNone result → NoneOf (is_left store.now branch.now) }
    ensures member { IfSome result (λ number. is_left store.now branch.now number ≡ true) }
{
    let hits = Scores::of(store, branch, |_| 1);
    let mut best = hits.left.first()?;
    for number in hits.left.members() {
        if pays_more(store.weights(), &hits, number, best) {
            best = number;
        }
    }
    Some(best)
}

/// Whether the number costs less for each core that it meets than the other.
fn pays_more<W: WeightKind>(weights: &[W], hits: &Scores, number: usize, other: usize) -> bool
    ensures { IsTrue result → (number < length weights.now) × (other < length weights.now) }
{
    let (Some(weight), Some(others)) = (weights.get(number), weights.get(other)) else {
        return false;
    };
    // Shares compare as products do; one that cannot be held is the greater one.
    let Some(product) = times(*weight, hits.of_number(other)) else {
        return false;
    };
    times(*others, hits.of_number(number)).is_none_or(|greater| product < greater)
}

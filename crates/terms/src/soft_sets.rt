//! Sets of soft numbers, and their members in order. A set means its mask, the number whose binary digits are one at the members.
#![tactic(auto, using(crate::proofs::WordLaws::word_laws), unfolding(crate::specs::Masks::member, crate::specs::Masks::subset, crate::specs::Masks::intersect))]

ghost use Rattle.std.specs.Prelude.{◌≡◌, ◌↔◌, ℕ, ◌-◌, ◌^◌, min, false, not, ◌&&◌, ◌||◌, IsTrue, ◌==◌, nat_lt, true, ◌<◌, ◌≤◌, IsNone, IfSome, All, length};
ghost use Rattle.std.specs.Iterator.{YieldsFirst, item_count};
ghost use Rattle.std.specs.List.{list_any};
ghost use Rattle.terms.specs.Masks.{member, Without, Subset, Intersect, Below, subset, intersect, below, size};
ghost use Rattle.terms.specs.Sets.{fits, members_of};

use crate::limits::SOFT_PLACES;
use std::marker::Model;

/// A set of soft numbers, each below `SOFT_PLACES`.
#[derive(Clone, Copy, PartialEq, Eq, Debug)]
pub struct SoftSet {
    bits: u64,
}

impl Model for SoftSet {
    ghost use Rattle.std.specs.Prelude.{ℕ};

    ghost Value = { ℕ };

    ghost view = { λ s. s.bits };

    ghost inverse = { λ m. record { bits = m } };
}

impl SoftSet {
    pub fn empty() -> SoftSet
        ensures value { result ≡ 0 }
        ensures members { (k : ℕ) → member result k ≡ false }
    {
        SoftSet { bits: 0 }
    }

    /// The set of these numbers, of which those that are too great are left out.
    pub fn of(numbers: &[usize]) -> SoftSet
        ensures { (k : ℕ) → member result k ≡ (list_any (λ number. number == k) numbers.now && fits k) }
    {
        let mut set = SoftSet::empty();
        for number in numbers {
            set = set.insert(*number);
        }
        set
    }

    /// The set whose members are the exponents of the ones among the binary digits of `mask`.
    pub fn from_mask(mask: u64) -> SoftSet
        ensures { result ≡ mask }
    {
        SoftSet { bits: mask }
    }

    /// The numbers below `s`, all of them where `s` is more.
    pub fn full(s: usize) -> SoftSet
        ensures value { result ≡ 2 ^ min s SOFT_PLACES - 1 }
        ensures members { (k : ℕ) → member result k ≡ (nat_lt k s && fits k) }
    {
        if s < SOFT_PLACES {
            SoftSet { bits: (1 << s) - 1 }
        } else {
            SoftSet { bits: u64::MAX }
        }
    }

    pub fn has(self, number: usize) -> bool
        ensures { result ≡ member self number }
    {
        number < SOFT_PLACES && (self.bits >> number) % 2 == 1
    }

    /// The set with `number` in it; a number that is too great changes nothing.
    pub fn insert(self, number: usize) -> SoftSet
        ensures { (k : ℕ) → member result k ≡ (member self k || (number == k && fits k)) }
    {
        SoftSet {
            bits: self.bits | digit(number),
        }
    }

    pub fn remove(self, number: usize) -> SoftSet
        ensures { Without self number result }
    {
        SoftSet {
            bits: self.bits & !digit(number),
        }
    }

    pub fn union(self, other: SoftSet) -> SoftSet
        ensures { (k : ℕ) → member result k ≡ (member self k || member other k) }
    {
        SoftSet {
            bits: self.bits | other.bits,
        }
    }

    /// The numbers of this set that the other lacks.
    pub fn minus(self, other: SoftSet) -> SoftSet
        ensures { (k : ℕ) → member result k ≡ (member self k && not (member other k)) }
    {
        SoftSet {
            bits: self.bits & !other.bits,
        }
    }

    pub fn is_empty(self) -> bool
        ensures value { result ≡ (self == 0) }
        ensures members { IsTrue result ↔ ((k : ℕ) → member self k ≡ false) }
    {
        self.bits == 0
    }

    pub fn is_subset(self, other: SoftSet) -> bool
        ensures value { result ≡ subset self other }
        ensures members { IsTrue result ↔ Subset self other }
    {
        self.bits & other.bits == self.bits
    }

    /// Whether each number of the set is below `s`.
    pub fn all_below(self, s: usize) -> bool
        ensures value { result ≡ below s self }
        ensures members { IsTrue result ↔ Below s self }
    {
        s >= SOFT_PLACES || self.bits >> s == 0
    }

    pub fn intersects(self, other: SoftSet) -> bool
        ensures value { result ≡ intersect self other }
        ensures members { IsTrue result ↔ Intersect self other }
    {
        self.bits & other.bits != 0
    }

    /// How many numbers the set has.
    pub fn len(self) -> usize
        ensures { result ≡ size SOFT_PLACES self }
    {
        self.bits.count_ones() as usize
    }

    /// The lowest member.
    pub fn first(self) -> Option<usize>
        ensures none { IsNone result ↔ ((k : ℕ) → member self k ≡ false) }
        ensures fits { IfSome result (λ number. number < SOFT_PLACES) }
        ensures member { IfSome result (λ number. member self number ≡ true) }
        ensures least { IfSome result (λ number. (k : ℕ) → member self k ≡ true → number ≤ k) }
    {
        if self.is_empty() {
            None
        } else {
            Some(self.bits.trailing_zeros() as usize)
        }
    }

    /// The members, lowest first.
    #[tactic(auto, using(crate::proofs::MemberLaws::listed_laws))]
    pub fn members(self) -> Members
        ensures value { result ≡ members_of self }
        ensures all { (k : ℕ) → member self k ≡ list_any (λ number. number == k) result }
        ensures fits { All (λ k. k < SOFT_PLACES) result }
        ensures len { length result ≤ SOFT_PLACES }
    {
        Members { set: self }
    }
}

/// Goes over the members of a set, and is seen as the list of those that are left.
#[derive(Debug, Drop)]
pub struct Members {
    set: SoftSet,
}

impl Model for Members {
    ghost use Rattle.std.specs.Prelude.{List, ℕ};
    ghost use Rattle.terms.specs.Sets.{members_of};

    ghost Value = { List ℕ };

    ghost view = { λ m. members_of m.set };
}

impl Iterator for Members {
    type Item = usize;

    ghost next_gives = { YieldsFirst (λ rest. rest) };

    ghost remaining = { item_count (λ rest. rest) };

    fn next(&mut self) -> Option<usize> {
        let number = self.set.first()?;
        self.set = self.set.remove(number);
        Some(number)
    }
}

/// The word in which the one number is a member, and none where it is too great.
fn digit(number: usize) -> u64
    ensures { (k : ℕ) → member result k ≡ (number == k && fits k) }
{
    if number < SOFT_PLACES { 1 << number } else { 0 }
}

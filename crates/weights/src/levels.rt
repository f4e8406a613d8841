//! Level weights: three whole numbers, of which each counts more than all after it.
ghost use Rattle.std.specs.Prelude.{◌≡◌, Some};
ghost use Rattle.weights.specs.Levelled.{levels_kind, with_commas};
ghost use Rattle.std.proofs.Common.{arith, rules};
ghost use Rattle.std.proofs.lemmas.Bool.Decides.{nat_tests};

use crate::kinds::WeightKind;
use std::fmt;

/// Three whole numbers, each up to 4,294,967,295.
#[derive(Clone, Copy, Debug, PartialEq, Eq, PartialOrd, Ord)]
pub struct Levels {
    pub first: u32,
    pub second: u32,
    pub third: u32,
}

impl Levels {
    pub fn new(first: u32, second: u32, third: u32) -> Levels
        ensures first { result.first ≡ first }
        ensures second { result.second ≡ second }
        ensures third { result.third ≡ third }
    {
        Levels {
            first,
            second,
            third,
        }
    }
}

impl WeightKind for Levels {
    ghost kind = { levels_kind };

    ghost laws = { record {
      total = Prim.grind (arith, nat_tests);
      trans = Prim.grind (arith, nat_tests);
      antisym = Prim.grind (arith, nat_tests);
      assoc = Prim.grind (arith, nat_tests);
      comm = Prim.grind (arith, nat_tests);
      unit = Prim.grind (arith, nat_tests);
      least = Prim.grind (arith, nat_tests);
      mono = Prim.grind (arith, nat_tests);
      none = Prim.grind (arith, nat_tests);
      parts = Prim.grind (arith, nat_tests);
    } };

    ghost ordered = { Prim.search rules };

    fn zero() -> Levels {
        Levels::new(0, 0, 0)
    }

    fn sum(self, other: Levels) -> Option<Levels> {
        Some(Levels {
            first: self.first.checked_add(other.first)?,
            second: self.second.checked_add(other.second)?,
            third: self.third.checked_add(other.third)?,
        })
    }

    fn to_numbers(self) -> (u64, u64, u64) {
        (
            u64::from(self.first),
            u64::from(self.second),
            u64::from(self.third),
        )
    }

    fn from_numbers((first, second, third): (u64, u64, u64)) -> Option<Levels> {
        Some(Levels {
            first: u32::try_from(first).ok()?,
            second: u32::try_from(second).ok()?,
            third: u32::try_from(third).ok()?,
        })
    }
}

impl fmt::Display for Levels {
    ghost output = { λ w. Some (with_commas (w.first, w.second, w.third)) };

    fn fmt<W: fmt::Write>(&self, f: &mut fmt::Formatter<W>) -> fmt::Result {
        write!(f, "{},{},{}", self.first, self.second, self.third)
    }
}

//! Plain weights: whole numbers.
ghost use Rattle.std.specs.Prelude.{◌≡◌, Some, decimal};
ghost use Rattle.weights.specs.Plainly.{plain_kind};
ghost use Rattle.std.proofs.Common.{rules};

use crate::kinds::WeightKind;
use std::fmt;

/// A whole number up to 18,446,744,073,709,551,615.
#[derive(Clone, Copy, Debug, PartialEq, Eq, PartialOrd, Ord)]
pub struct Plain {
    pub amount: u64,
}

impl Plain {
    pub fn new(amount: u64) -> Plain
        ensures { result.amount ≡ amount }
    {
        Plain { amount }
    }
}

impl WeightKind for Plain {
    ghost kind = { plain_kind };

    ghost laws = { Prim.search rules };

    ghost ordered = { Prim.search rules };

    fn zero() -> Plain {
        Plain::new(0)
    }

    fn sum(self, other: Plain) -> Option<Plain> {
        self.amount.checked_add(other.amount).map(Plain::new)
    }

    fn to_numbers(self) -> (u64, u64, u64) {
        (self.amount, 0, 0)
    }

    fn from_numbers(three: (u64, u64, u64)) -> Option<Plain> {
        match three {
            (amount, 0, 0) => Some(Plain::new(amount)),
            _ => None,
        }
    }
}

impl fmt::Display for Plain {
    ghost output = { λ w. Some (decimal w.amount) };

    fn fmt<W: fmt::Write>(&self, f: &mut fmt::Formatter<W>) -> fmt::Result {
        write!(f, "{}", self.amount)
    }
}

//! Weights of both kinds, as costs of the second solver.
use super::enumeration::Cost;
use crate::weighing::Drawn;
use weights::{Levels, Plain};

/// A weight kind whose weights can be drawn, and read by the second solver.
pub(crate) trait Reckoned: Drawn {
    /// How many numbers a weight has.
    const NUMBERS: usize;

    /// The most that a total can be, in each of the three numbers of a cost.
    const MOST: Cost;

    fn read(self) -> Cost;
}

impl Reckoned for Plain {
    const NUMBERS: usize = 1;

    const MOST: Cost = [u64::MAX as u128, 0, 0];

    fn read(self) -> Cost {
        [u128::from(self.amount), 0, 0]
    }
}

impl Reckoned for Levels {
    const NUMBERS: usize = 3;

    const MOST: Cost = [u32::MAX as u128; 3];

    fn read(self) -> Cost {
        [self.first, self.second, self.third].map(u128::from)
    }
}

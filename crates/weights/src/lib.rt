//! Weight kinds, and the cost of a set of soft numbers.
#![tactic(auto)]

mod costs;
mod kinds;
mod levels;
mod plain;

pub use costs::cost_of;
pub use kinds::WeightKind;
pub use levels::Levels;
pub use plain::Plain;

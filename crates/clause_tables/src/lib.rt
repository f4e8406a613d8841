//! Clause tables in memory that the caller lends, for finders to keep their clauses in.
#![tactic(auto)]

mod clauses;
mod lent;
mod records;
mod room;
mod tables;

pub use clauses::Clauses;
pub use records::{Clause, ClauseKind, ClauseRecord};
pub use room::Room;
pub use tables::Tables;

//! The words of the product: refusals, literals, clauses, assignments, and sets of soft numbers.
#![tactic(auto)]

mod clauses;
pub mod limits;
mod refusals;
mod soft_sets;

pub use clauses::{first_bad_literal, is_binary, satisfies};
pub use refusals::{Layer, Part, Refusal, earlier};
pub use soft_sets::{Members, SoftSet};

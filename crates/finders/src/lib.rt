//! Finders: which clauses can be satisfied together, told by a trait with one meaning.
#![tactic(auto)]

mod finder;

pub use finder::{Answer, Finder};

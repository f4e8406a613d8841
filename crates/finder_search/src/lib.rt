//! The search: a finder that solves as a DPLL solver does, on clause tables that the caller lends.
#![tactic(auto)]

mod clause_status;
mod finder;
mod literals;
mod occurrences;
mod order;
mod propagation;
mod question;
mod reasons;
mod scores;
mod splitting;
mod trail;
mod variable_sets;

pub use finder::Search;

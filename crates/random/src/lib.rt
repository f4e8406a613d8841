//! Deterministic xorshift numbers, the same on each run.
#![tactic(auto)]

mod xorshift;

pub use xorshift::Xorshift;

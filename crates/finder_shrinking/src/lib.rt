//! The shrinking layer: it stands on any finder, and its cores have no member to spare.
#![tactic(auto)]

mod shrinking;

pub use shrinking::Shrinking;

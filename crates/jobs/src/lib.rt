//! The job: it plays a finder against a cover maker until the cheapest plan is known.
#![tactic(auto)]

mod job;
mod play;

pub use bracket::Status;
pub use job::{Bracket, Job};

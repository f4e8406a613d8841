//! Session texts played against a job.
#![tactic(auto)]

mod calls;
mod faults;
mod instructions;
mod outputs;
mod playing;
mod printing;
mod session;

pub use outputs::play;
pub use terms::limits::MOST_BYTES;

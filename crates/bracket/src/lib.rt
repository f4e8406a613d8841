//! What a job is at each moment, what each call leads to, and the bracket that every log of calls keeps.
#![tactic(auto)]

mod states;

pub use states::{Phase, Status};

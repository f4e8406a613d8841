//! Compares parts that are told to mean the same, each in a way of its own, on drawn inputs and at the edges of what is taken.
//! A disagreement is shown with what led to it, and ends the program with an error.
#![tactic(auto)]

mod drawing;
mod faults;
mod finders_compared;
mod jobs_compared;
mod makers_compared;
mod tables;
mod tally;
mod weighing;

use anyhow::Result;

fn main(rt: HostRuntime) -> Result<()> {
    finders_compared::compare(&rt)?;
    makers_compared::compare(&rt)?;
    jobs_compared::compare(&rt)
}

//! Shows the parts at work on small cases: the two finders and the shrinking layer, the two cover makers, and jobs.
#![tactic(auto)]

mod finders_shown;
mod jobs_shown;
mod makers_shown;

use std::io;

fn main(rt: HostRuntime) -> io::Result<()> {
    finders_shown::show(&rt)?;
    makers_shown::show(&rt)?;
    jobs_shown::show(&rt)
}

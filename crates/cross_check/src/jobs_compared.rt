//! Runs the edges of what is taken, and gives many small jobs to the product and to a second solver of another make, which goes
//! through all plans.
mod comparison;
mod counts;
mod drawing;
mod edges;
mod enumeration;
mod reckoning;
mod said;
#[cfg(test)]
mod tests;

use crate::drawing::SEED;
use crate::tables::Tables;
use anyhow::{Context, Result};
use comparison::Comparison;
use counts::Counts;
use drawing::{Drawing, draw_job};
use edges::show_edges;
use finder_shrinking::Shrinking;
use finders::Finder;
use jobs::Job;
use maker_branch::BranchAndBoundMaker;
use makers::CoverMaker;
use random::Xorshift;
use reckoning::Reckoned;
use weights::{Levels, Plain};

const JOBS: usize = 300;

pub(crate) fn compare(rt: &(impl Print + AllocGlobal)) -> Result<()> {
    show_edges(rt)?;
    let mut random = Xorshift::new(SEED);
    println!(rt; "The job and the enumeration are given {JOBS} jobs with plain weights.")?;
    let mut counts = Counts::new(rt.alloc());
    for number in 0..JOBS {
        let drawn = draw_job::<Plain>(rt.alloc(), &mut random)?;
        let maker = BranchAndBoundMaker::new(rt.alloc())?;
        compare_on(rt, maker, &drawn, &mut counts).context(format_args!("job {number}"))?;
    }
    counts.show::<Plain>(rt)?;
    println!(rt; "The job and the enumeration are given {JOBS} jobs with level weights.")?;
    let mut counts = Counts::new(rt.alloc());
    for number in 0..JOBS {
        let drawn = draw_job::<Levels>(rt.alloc(), &mut random)?;
        let maker = BranchAndBoundMaker::new(rt.alloc())?;
        compare_on(rt, maker, &drawn, &mut counts).context(format_args!("job {number}"))?;
    }
    counts.show::<Levels>(rt)?;
    println!(rt; "No disagreement.")?;
    Ok(())
}

/// Makes the calls of the job, and shows them up to the one on which the two disagree.
fn compare_on<C: CoverMaker + Drop>(
    rt: &(impl Print + AllocGlobal),
    maker: C,
    drawn: &Drawing<C::Weight>,
    counts: &mut Counts,
) -> Result<()>
where
    C::Weight: Reckoned,
{
    let mut tables = Tables::new(rt.alloc(), 20, 80)?;
    let finder = tables.search(usize::from(drawn.variables));
    let job = Job::open(Shrinking::new(finder), maker);
    let comparison = Comparison::new(rt.alloc(), job, drawn.variables);
    make_all(rt, comparison, drawn, counts)
}

fn make_all<F: Finder + Drop, C: CoverMaker + Drop>(
    rt: &(impl Print + AllocGlobal),
    mut comparison: Comparison<F, C>,
    drawn: &Drawing<C::Weight>,
    counts: &mut Counts,
) -> Result<()>
where
    C::Weight: Reckoned,
{
    for (index, call) in drawn.calls.iter().enumerate() {
        if let Err(fault) = comparison.make(call, counts) {
            drawn.show(rt, index)?;
            comparison.show(rt)?;
            return Err(fault.into());
        }
    }
    Ok(())
}

//! Gives the same weights and cores to the count-through maker and to the branch-and-bound maker, and looks for an answer on
//! which they differ; and large ones, with costs that were worked out by hand, to the branch-and-bound maker alone.
mod filling;
mod large;
mod pair;
mod taken;
#[cfg(test)]
mod tests;

use crate::drawing::SEED;
use crate::tally::Tally;
use crate::weighing::Drawn;
use anyhow::{Context, Result};
use filling::fill;
use large::show_large_stores;
use maker_branch::BranchAndBoundMaker;
use maker_count::CountThroughMaker;
use makers::CoverMaker;
use pair::Pair;
use random::Xorshift;
use weights::{Levels, Plain};

const STORES: usize = 3000;

pub(crate) fn compare(rt: &(impl Print + AllocGlobal)) -> Result<()> {
    let mut random = Xorshift::new(SEED);
    let mut tally = Tally::new(rt.alloc());
    for number in 0..STORES {
        let outcome = if number % 2 == 0 {
            let reference = CountThroughMaker::<Plain>::new(rt.alloc())?;
            let tested = BranchAndBoundMaker::new(rt.alloc())?;
            compare_on(rt, reference, tested, &mut random, &mut tally, number)
        } else {
            let reference = CountThroughMaker::<Levels>::new(rt.alloc())?;
            let tested = BranchAndBoundMaker::new(rt.alloc())?;
            compare_on(rt, reference, tested, &mut random, &mut tally, number)
        };
        outcome.context(format_args!("store {number}"))?;
    }
    println!(rt;
        "The count-through maker and the branch-and-bound maker were given {STORES} stores, half of them of each weight kind."
    )?;
    tally.show(rt)?;
    println!(rt; "No difference.")?;
    println!(rt; "The branch-and-bound maker was given large stores.")?;
    show_large_stores(rt)
}

/// Fills both makers, and shows what they were given where they differ.
fn compare_on<R: CoverMaker + Drop, T: CoverMaker<Weight = R::Weight> + Drop>(
    rt: &(impl Print + AllocGlobal),
    reference: R,
    tested: T,
    random: &mut Xorshift,
    tally: &mut Tally,
    number: usize,
) -> Result<()>
where
    R::Weight: Drawn,
{
    let mut pair = Pair::new(rt.alloc(), reference, tested);
    let outcome = fill(&mut pair, random, tally, number);
    if outcome.is_err() {
        pair.show(rt)?;
    }
    outcome
}

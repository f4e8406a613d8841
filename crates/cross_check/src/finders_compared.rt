//! Makes the same calls on the count-through finder and on the search, and looks for one on which they disagree.
mod accepted;
mod drawing;
mod inputs;
mod pair;
#[cfg(test)]
mod tests;

use crate::drawing::SEED;
use crate::tables::Tables;
use crate::tally::Tally;
use anyhow::{Context, Result};
use drawing::draw_input;
use inputs::Input;
use pair::Pair;
use random::Xorshift;

const INPUTS: usize = 3000;

pub(crate) fn compare(rt: &(impl Print + AllocGlobal)) -> Result<()> {
    let mut random = Xorshift::new(SEED);
    let mut tally = Tally::new(rt.alloc());
    for number in 0..INPUTS {
        let input = draw_input(rt.alloc(), &mut random, number)?;
        let outcome = compare_on(rt, &input, &mut tally);
        outcome.context(format_args!("input {number}"))?;
    }
    println!(rt; "The count-through finder and the search were given {INPUTS} inputs.")?;
    tally.show(rt)?;
    println!(rt; "No disagreement.")?;
    Ok(())
}

/// Makes the calls on both finders, and shows them up to one on which they disagree.
fn compare_on(rt: &(impl Print + AllocGlobal), input: &Input, tally: &mut Tally) -> Result<()> {
    let variables = usize::from(input.variables);
    let mut tables = Tables::new(rt.alloc(), input.clause_places, input.literal_places)?;
    let mut others = Tables::new(rt.alloc(), input.clause_places, input.literal_places)?;
    let reference = tables.count_through(variables);
    let mut pair = Pair::new(rt.alloc(), reference, others.search(variables), variables);
    for (index, call) in input.calls.iter().enumerate() {
        match pair.make(call) {
            Ok(outcome) => tally.count(outcome)?,
            Err(fault) => {
                input.show(rt, index)?;
                return Err(fault.into());
            }
        }
    }
    Ok(())
}

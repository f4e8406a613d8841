//! Fills a pair of makers with weights and cores that are drawn.
use super::pair::Pair;
use super::taken::{Costs, Taken};
use crate::tally::{Outcome, Tally};
use crate::weighing::{Drawn, Spread, draw_weight};
use anyhow::{Context, Result};
use makers::CoverMaker;
use random::Xorshift;
use std::alloc::AllocError;
use terms::limits::MOST_COUNTED;
use terms::{Refusal, SoftSet};
use weights::WeightKind;

/// How large a store is, and how its weights and cores are drawn.
#[derive(Clone, Copy)]
struct Outline {
    /// Weights that are added before there is a core, and weights that come later.
    weights: [u8; 2],
    spread: Spread,
    /// Cores that are added after the first weights, and again after the others.
    cores: u8,
    longest: u8,
}

impl Outline {
    /// Of twenty stores, two have 13 to 16 weights, and the others up to 12.
    fn draw(random: &mut Xorshift, number: usize) -> Outline {
        let weights = match number % 20 {
            0 | 1 => 13 + random.up_to(3),
            _ => 1 + random.up_to(11),
        };
        let late = random.up_to(weights / 2);
        Outline {
            weights: [weights - late, late],
            spread: match random.up_to(3) {
                0 => Spread::Equal,
                1 => Spread::Small(3),
                2 => Spread::Wide,
                _ => Spread::Mixed,
            },
            cores: random.up_to(20),
            longest: 2 + random.up_to(4),
        }
    }
}

/// Draws weights and cores and adds them, and compares the costs of some sets and the covers; and then the same again.
pub(crate) fn fill<R: CoverMaker, T: CoverMaker<Weight = R::Weight>>(
    pair: &mut Pair<R, T>,
    random: &mut Xorshift,
    tally: &mut Tally,
    number: usize,
) -> Result<()>
where
    R::Weight: Drawn,
{
    let outline = Outline::draw(random, number);
    for weights in outline.weights {
        for _ in 0..weights {
            let weight = draw_weight(random, outline.spread);
            let outcome = pair.add_weight(weight);
            let refusal = outcome.context(format_args!("the weight {weight}"))?;
            count(tally, refusal, Outcome::WeightAdded)?;
        }
        for _ in 0..outline.cores {
            let core = draw_core(random, outline.longest, &pair.taken);
            let outcome = pair.add_core(core);
            let refusal = outcome.context(format_args!("the core {core:?}"))?;
            count(tally, refusal, Outcome::CoreAdded)?;
        }
        for _ in 0..4 {
            let set = draw_set(random, given(&pair.taken));
            let outcome = pair.compare_cost(set);
            let refusal = outcome.context(format_args!("the cost of {set:?}"))?;
            count(tally, refusal, Outcome::CostTold)?;
        }
        let (counted, branched) = pair.compare_covers()?;
        count_covers(tally, counted, branched)?;
    }
    Ok(())
}

/// Counts a call that both makers accepted or refused.
fn count(tally: &mut Tally, refusal: Option<Refusal>, accepted: Outcome) -> Result<(), AllocError> {
    tally.count(match refusal {
        Some(refusal) => Outcome::CallRefused(refusal.number()),
        None => accepted,
    })
}

/// Counts the quick covers that cost the least.
fn count_covers<W: WeightKind>(
    tally: &mut Tally,
    counted: Costs<W>,
    branched: Costs<W>,
) -> Result<(), AllocError> {
    tally.count(Outcome::CoversCompared)?;
    if counted.quick == counted.least {
        tally.count(Outcome::CountedLeast)?;
    }
    if branched.quick == branched.least {
        tally.count(Outcome::BranchedLeast)?;
    }
    Ok(())
}

/// How many weights there are.
fn given<W: WeightKind>(taken: &Taken<W>) -> u8 {
    taken.weights.len().min(MOST_COUNTED) as u8
}

/// Mostly two numbers or more; now and then a core that was added before, also with more numbers or with one less,
/// one with a number that is not given, or none.
fn draw_core<W: WeightKind>(random: &mut Xorshift, longest: u8, taken: &Taken<W>) -> SoftSet {
    let given = given(taken);
    let size = random.up_to(longest).max(2);
    let core = draw_numbers(random, given, size);
    match random.up_to(39) {
        0 => SoftSet::empty(),
        1 => core.insert(usize::from(given) + usize::from(random.up_to(2))),
        2..=4 => draw_earlier(random, &taken.cores),
        5..=7 => draw_earlier(random, &taken.cores).union(core),
        8 => {
            let earlier = draw_earlier(random, &taken.cores);
            earlier.remove(earlier.first().unwrap_or(0))
        }
        _ => core,
    }
}

/// Some of the given numbers, and now and then one that is not given.
fn draw_set(random: &mut Xorshift, given: u8) -> SoftSet {
    let size = random.up_to(given);
    let set = draw_numbers(random, given, size);
    if random.one_in(10) {
        set.insert(usize::from(given) + usize::from(random.up_to(2)))
    } else {
        set
    }
}

/// So many of the given numbers; some may come twice.
fn draw_numbers(random: &mut Xorshift, given: u8, size: u8) -> SoftSet {
    let mut set = SoftSet::empty();
    for _ in 0..size {
        let number = random.up_to(given.saturating_sub(1));
        set = set.insert(usize::from(number));
    }
    set
}

/// A core that was added before, if there is one.
fn draw_earlier(random: &mut Xorshift, cores: &[SoftSet]) -> SoftSet {
    let last = cores.len().saturating_sub(1).min(usize::from(u8::MAX)) as u8;
    let index = usize::from(random.up_to(last));
    cores.get(index).copied().unwrap_or(SoftSet::empty())
}

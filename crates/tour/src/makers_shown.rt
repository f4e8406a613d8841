//! Asks both cover makers which wishes for a pump skid are best given up, in both weight kinds.
use itertools::Itertools;
use maker_branch::BranchAndBoundMaker;
use maker_count::CountThroughMaker;
use makers::CoverMaker;
use std::{fmt, io};
use terms::SoftSet;
use weights::{Levels, Plain};

// Wish 0 does without the electric pump, 1 without the diesel pump, 2 without cooling, 3 without a tank, 4 without a meter.
// One pump is needed, the electric one with cooling and meter, the diesel one with a tank: these wishes stand against each other.
const CORES: [&[usize]; 11] = [
    &[0, 1],
    &[1, 2, 4],
    &[0, 3],
    // It drops the core that contains it.
    &[1, 2],
    &[2, 3],
    &[1, 4],
    &[3, 4],
    // Kept already, and with a kept part.
    &[2, 3],
    &[0, 1, 2],
    // No core, and a wish that is not given.
    &[],
    &[0, 5],
];

pub(crate) fn show(rt: &(impl Print + AllocGlobal)) -> io::Result<()> {
    println!(rt; "Plain weights.")?;
    let weights = [12, 30, 0, 5, 12, 2, u64::MAX].map(Plain::new);
    let counting = CountThroughMaker::new(rt.alloc())?;
    play_both(
        rt,
        counting,
        BranchAndBoundMaker::new(rt.alloc())?,
        &weights,
    )?;
    println!(rt;
        "Plain weights. Three of them come to 4294967296, which 32 bits would count as 0."
    )?;
    let weights = [4_294_967_294, 30, 1, 12, 1].map(Plain::new);
    let counting = CountThroughMaker::new(rt.alloc())?;
    play_both(
        rt,
        counting,
        BranchAndBoundMaker::new(rt.alloc())?,
        &weights,
    )?;
    println!(rt; "Level weights. A level outweighs all later ones.")?;
    let weights = [
        Levels::new(0, 9, 0),
        Levels::new(0, 0, 30),
        Levels::new(0, 0, 5),
        Levels::new(1, 0, 0),
        Levels::new(0, u32::MAX, 0),
        Levels::new(0, 0, 2),
    ];
    let counting = CountThroughMaker::new(rt.alloc())?;
    play_both(
        rt,
        counting,
        BranchAndBoundMaker::new(rt.alloc())?,
        &weights,
    )
}

/// Plays the weights on the count-through maker, and then on the branch-and-bound maker.
fn play_both<C: CoverMaker + Drop, B: CoverMaker<Weight = C::Weight> + Drop>(
    rt: &(impl Print + AllocGlobal),
    counting: C,
    branching: B,
    weights: &[C::Weight],
) -> io::Result<()>
where
    C::Weight: fmt::Display,
{
    play(rt, counting, weights)?;
    println!(rt; "The same on the branch-and-bound maker.")?;
    play(rt, branching, weights)
}

/// Adds the weights and the cores, and shows what the maker answers and which covers it finds.
fn play<C: CoverMaker + Drop>(
    rt: &(impl Print + AllocGlobal),
    mut maker: C,
    weights: &[C::Weight],
) -> io::Result<()>
where
    C::Weight: fmt::Display,
{
    for weight in weights {
        match maker.add_weight(*weight) {
            Ok(()) => println!(rt; "  Weight {weight} is added.")?,
            Err(refusal) => println!(rt;
                "  Weight {weight} is refused with {}.",
                refusal.number()
            )?,
        }
    }
    for numbers in &CORES {
        add_core(rt, &mut maker, numbers)?;
    }
    show_cover(rt, &maker, "Quickly", maker.cover())?;
    show_cover(rt, &maker, "At the least cost", maker.least_cover())
}

/// Adds the core of these numbers, and shows how many are kept.
fn add_core<C: CoverMaker>(
    rt: &(impl Print + AllocGlobal),
    maker: &mut C,
    numbers: &[usize],
) -> io::Result<()> {
    let core = SoftSet::of(numbers);
    let wishes = core.members().join(rt.alloc(), ", ")?;
    let outcome = maker.add_core(core);
    let kept = maker.core_count();
    match outcome {
        Ok(()) => println!(rt; "  Core {{{wishes}}} is added. Kept cores: {kept}."),
        Err(refusal) => println!(rt;
            "  Core {{{wishes}}} is refused with {}. Kept cores: {kept}.",
            refusal.number()
        ),
    }
}

/// The wishes to give up, and what that costs.
fn show_cover<C: CoverMaker>(
    rt: &(impl Print + AllocGlobal),
    maker: &C,
    how: &str,
    cover: SoftSet,
) -> io::Result<()>
where
    C::Weight: fmt::Display,
{
    let wishes = cover.members().join(rt.alloc(), ", ")?;
    match maker.cost(cover) {
        Ok(cost) => println!(rt; "  {how}, {{{wishes}}} is given up, which costs {cost}."),
        Err(refusal) => println!(rt;
            "  {how}, {{{wishes}}} is given up, which is refused with {}.",
            refusal.number()
        ),
    }
}

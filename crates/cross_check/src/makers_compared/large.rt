//! Stores of up to 64 weights, with costs worked out by hand. The numbers are those of the rules, so no limit is cited by its name.
use super::taken::Taken;
use crate::faults::{Fault, same};
use anyhow::Result;
use maker_branch::BranchAndBoundMaker;
use makers::CoverMaker;
use std::alloc::{AllocError, Global};
use std::fmt;
use terms::{Part, Refusal, SoftSet};
use weights::{Levels, Plain};

/// Makes stores of several shapes and shows what their covers cost.
pub(crate) fn show_large_stores(rt: &(impl Print + AllocGlobal)) -> Result<()> {
    // The weights are 1, 2, 3 and so on. The lighter numbers of the pairs weigh 1, 3, 5 and so on up to 63.
    let weights: Vec<Plain> = (1..=64).map(Plain::new).collect(rt.alloc())?;
    let cores = pairs(rt.alloc(), 0, 32)?;
    show_plain(rt, "Pairs", &weights, &cores, 1024)?;
    // The weights come to 528, and all but the heaviest are needed.
    let weights: Vec<Plain> = (1..=32).map(Plain::new).collect(rt.alloc())?;
    let cores = every_two(rt.alloc(), 32)?;
    show_plain(rt, "Every two", &weights, &cores, 496)?;
    // Each ring needs three of its numbers.
    let cores = rings(rt.alloc(), 6, 5)?;
    let weights = [Plain::new(1); 30];
    show_plain(rt, "Rings of five", &weights, &cores, 18)?;
    show_levels(rt)?;
    show_greatest_total(rt)?;
    show_full_store(rt)
}

/// Each ring of three needs two numbers, and those of the later levels are cheaper.
fn show_levels(rt: &(impl Print + AllocGlobal)) -> Result<()> {
    let mut weights = Vec::new(rt.alloc());
    for _ in 0..21 {
        weights.push(Levels::new(1, 0, 0))?;
        weights.push(Levels::new(0, 1, 0))?;
        weights.push(Levels::new(0, 0, 1))?;
    }
    let cores = rings(rt.alloc(), 21, 3)?;
    let maker = BranchAndBoundMaker::new(rt.alloc())?;
    let cost = Levels::new(0, 21, 21);
    show_store(rt, "Rings of three", maker, &weights, &cores, cost)?;
    Ok(())
}

/// The total is the greatest that can be held, and every number is needed.
fn show_greatest_total(rt: &(impl Print + AllocGlobal)) -> Result<()> {
    let mut weights = [Plain::new(1 << 58); 64];
    weights[63] = Plain::new((1 << 58) - 1);
    let mut cores = Vec::new(rt.alloc());
    for number in 0..64 {
        cores.push(SoftSet::of(&[number]))?;
    }
    show_plain(rt, "Single numbers", &weights, &cores, u64::MAX)?;
    Ok(())
}

/// With 64 weights and 512 cores all places are taken.
fn show_full_store(rt: &(impl Print + AllocGlobal)) -> Result<()> {
    let one = Plain::new(1);
    let mut cores = every_two(rt.alloc(), 32)?;
    cores.extend(pairs(rt.alloc(), 16, 32)?)?;
    // Of the first 32 numbers 31 are needed, and of the other 32 one in each pair.
    let mut maker = show_plain(rt, "Every two, and pairs", &[one; 64], &cores, 47)?;
    let no_place = Refusal::NoSoftPlace(Part::CoverMaker);
    same(maker.add_weight(one).err(), Some(no_place), Fault::Refusals)?;
    println!(rt;
        "    One more weight is refused with {}.",
        no_place.number()
    )?;
    let no_place = Refusal::NoCorePlace;
    let refusal = maker.add_core(SoftSet::of(&[0, 63])).err();
    same(refusal, Some(no_place), Fault::Refusals)?;
    println!(rt; "    One more core is refused with {}.", no_place.number())?;
    Ok(())
}

/// Shows what the covers of a store with plain weights cost.
pub(crate) fn show_plain(
    rt: &(impl Print + AllocGlobal),
    name: &str,
    weights: &[Plain],
    cores: &[SoftSet],
    cost: u64,
) -> Result<BranchAndBoundMaker<Plain>> {
    let maker = BranchAndBoundMaker::new(rt.alloc())?;
    show_store(rt, name, maker, weights, cores, Plain::new(cost))
}

/// The maker has to take all of these weights and to keep each of these cores, and its least cover to cost what was worked out.
/// Shows the costs of its covers.
fn show_store<C: CoverMaker + Drop>(
    rt: &(impl Print + AllocGlobal),
    name: &str,
    mut maker: C,
    weights: &[C::Weight],
    cores: &[SoftSet],
    cost: C::Weight,
) -> Result<C>
where
    C::Weight: fmt::Display,
{
    let mut taken = Taken::new(rt.alloc());
    for weight in weights {
        same(maker.add_weight(*weight).err(), None, Fault::Refusals)?;
        taken.weights.push(*weight)?;
    }
    for core in cores {
        same(maker.add_core(*core).err(), None, Fault::Refusals)?;
        taken.cores.push(*core)?;
    }
    let (softs, kept) = (maker.soft_count(), maker.core_count());
    same(kept, cores.len(), Fault::CoreCounts)?;
    let costs = taken.check_covers(&maker)?;
    same(costs.least, cost, Fault::WorkedOut)?;
    let quick = costs.quick;
    println!(rt;
        "  {name}, with {softs} weights and {kept} cores: {cost} at the least, {quick} quickly."
    )?;
    Ok(maker)
}

/// Cores of two numbers that follow each other; pair 0 has 0 and 1.
fn pairs(alloc: Global, first: u8, end: u8) -> Result<Vec<SoftSet>, AllocError> {
    (first..end)
        .map(|pair| {
            let number = 2 * usize::from(pair);
            SoftSet::of(&[number, number + 1])
        })
        .collect(alloc)
}

/// A core of every two of the first numbers.
fn every_two(alloc: Global, numbers: usize) -> Result<Vec<SoftSet>, AllocError> {
    let mut cores = Vec::new(alloc);
    for second in 0..numbers {
        for first in 0..second {
            cores.push(SoftSet::of(&[first, second]))?;
        }
    }
    Ok(cores)
}

/// Cores of neighbours in so many rings, of so many numbers each.
fn rings(alloc: Global, rings: u8, length: u8) -> Result<Vec<SoftSet>, AllocError> {
    let mut cores = Vec::new(alloc);
    for ring in 0..rings {
        let start = usize::from(ring) * usize::from(length);
        for at in 0..length {
            let next = if at + 1 < length { at + 1 } else { 0 };
            let numbers = [start + usize::from(at), start + usize::from(next)];
            cores.push(SoftSet::of(&numbers))?;
        }
    }
    Ok(cores)
}

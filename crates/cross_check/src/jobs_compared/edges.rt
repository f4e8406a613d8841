//! The edges: what is accepted, then what is one too many, and the end of a job after both. The numbers are those of the rules,
//! so no limit is cited by its name.
use crate::tables::Tables;
use anyhow::Result;
use finder_search::Search;
use finder_shrinking::Shrinking;
use finders::Finder;
use jobs::Job;
use maker_branch::BranchAndBoundMaker;
use makers::CoverMaker;
use std::alloc::{AllocError, Global};
use std::{fmt, io};
use terms::Refusal;
use weights::{Levels, Plain};

// Enough for each of these jobs.
const MOST_ROUNDS: u16 = 1000;

pub(crate) fn show_edges(rt: &(impl Print + AllocGlobal)) -> Result<()> {
    println!(rt; "Clauses of 64 and of 65 literals.")?;
    show_long_clauses(rt)?;
    show_long_clauses_of_job(rt)?;
    println!(rt; "64 and 65 soft clauses.")?;
    show_many_softs(rt)?;
    show_many_softs_of_job(rt)?;
    println!(rt; "256 and 257 variables.")?;
    show_many_variables(rt)?;
    show_many_variables_of_job(rt)
}

/// The search alone gets long clauses of both sorts.
fn show_long_clauses(rt: &(impl Print + AllocGlobal)) -> Result<()> {
    let mut tables = Tables::new(rt.alloc(), 4, 300)?;
    let mut finder = tables.search(65);
    println!(rt; "  The search:")?;
    for length in [64, 65_u8] {
        let (chosen, left_out) = long_clauses(rt.alloc(), length)?;
        let refusal = finder.add_hard(&chosen).err();
        let what = format_args!("A hard clause of {length} literals");
        show(rt, what, refusal)?;
        let refusal = finder.add_soft(&left_out).err();
        let what = format_args!("A soft clause of {length} literals");
        show(rt, what, refusal)?;
    }
    Ok(())
}

/// One of the options 1 to 64 is needed, and not all of them are wanted. Then all of them are needed.
fn show_long_clauses_of_job(rt: &(impl Print + AllocGlobal)) -> Result<()> {
    let mut tables = Tables::new(rt.alloc(), 70, 400)?;
    let finder = tables.search(65);
    let maker = BranchAndBoundMaker::new(rt.alloc())?;
    let mut job = Job::open(Shrinking::new(finder), maker);
    println!(rt; "  A job:")?;
    for length in [64, 65_u8] {
        let (chosen, left_out) = long_clauses(rt.alloc(), length)?;
        let refusal = job.hard(&chosen).err();
        let what = format_args!("A hard clause of {length} literals");
        show(rt, what, refusal)?;
        let refusal = job.soft(Plain::new(9), &left_out).err();
        let what = format_args!("A soft clause of {length} literals and weight 9");
        show(rt, what, refusal)?;
    }
    show_end(rt, &mut job)?;
    let refusal = (1..=64_u8).find_map(|option| job.hard(&[i32::from(option)]).err());
    show(rt, "Hard clauses for each of the 64 options", refusal)?;
    show_end(rt, &mut job)
}

/// One of so many options is chosen, and one of them is not.
fn long_clauses(alloc: Global, length: u8) -> Result<(Vec<i32>, Vec<i32>), AllocError> {
    let chosen = (1..=length).map(i32::from).collect(alloc)?;
    let left_out = (1..=length)
        .map(|option| -i32::from(option))
        .collect(alloc)?;
    Ok((chosen, left_out))
}

/// The search alone gets 65 soft clauses, and the branch-and-bound maker alone as many weights.
fn show_many_softs(rt: &(impl Print + AllocGlobal)) -> Result<()> {
    let mut tables = Tables::new(rt.alloc(), 70, 70)?;
    let mut finder = tables.search(65);
    println!(rt; "  The search:")?;
    let refusal = (1..=64_u8).find_map(|option| finder.add_soft(&[-i32::from(option)]).err());
    show(rt, "64 soft clauses", refusal)?;
    show(rt, "One more", finder.add_soft(&[-65]).err())?;
    let mut maker = BranchAndBoundMaker::new(rt.alloc())?;
    println!(rt; "  The branch-and-bound maker:")?;
    let refusal = (1..=64).find_map(|amount| maker.add_weight(Plain::new(amount)).err());
    show(rt, "64 weights", refusal)?;
    show(rt, "One more", maker.add_weight(Plain::new(65)).err())?;
    Ok(())
}

/// No option is wanted, at the weights 1 to 64. One of the first two is needed, one of the next two, and so on.
/// The cheaper ones are 1, 3, 5 and so on.
fn show_many_softs_of_job(rt: &(impl Print + AllocGlobal)) -> Result<()> {
    let mut tables = Tables::new(rt.alloc(), 100, 200)?;
    let finder = tables.search(65);
    let maker = BranchAndBoundMaker::new(rt.alloc())?;
    let mut job = Job::open(Shrinking::new(finder), maker);
    println!(rt; "  A job:")?;
    let refusal = (1..=64_u8).find_map(|option| {
        let weight = Plain::new(u64::from(option));
        job.soft(weight, &[-i32::from(option)]).err()
    });
    show(rt, "64 soft clauses", refusal)?;
    show(rt, "One more", job.soft(Plain::new(65), &[-65]).err())?;
    let refusal = (1..=32_u8).find_map(|pair| {
        let second = 2 * i32::from(pair);
        job.hard(&[second - 1, second]).err()
    });
    show(rt, "32 hard clauses of two literals", refusal)?;
    show_end(rt, &mut job)
}

/// The search is asked about numbers of variables, and made with one too many.
fn show_many_variables(rt: &(impl Print + AllocGlobal)) -> Result<()> {
    println!(rt; "  The search:")?;
    show(rt, "256 variables", Search::check(256).err())?;
    show(rt, "257 variables", Search::check(257).err())?;
    let mut tables = Tables::new(rt.alloc(), 0, 0)?;
    let finder = tables.search(257);
    println!(rt;
        "    Made with 257 variables, it has {}.",
        finder.variables()
    )?;
    Ok(())
}

/// The first option is needed, and each one needs the next. The first and the last are not wanted.
fn show_many_variables_of_job(rt: &(impl Print + AllocGlobal)) -> Result<()> {
    let mut tables = Tables::new(rt.alloc(), 300, 600)?;
    let finder = tables.search(256);
    let maker = BranchAndBoundMaker::new(rt.alloc())?;
    let mut job = Job::open(Shrinking::new(finder), maker);
    println!(rt; "  A job:")?;
    let refusal = (1..=255_u8).find_map(|option| {
        let first = i32::from(option);
        job.hard(&[-first, first + 1]).err()
    });
    show(
        rt,
        "Hard clauses -1 2, -2 3 and so on up to -255 256",
        refusal,
    )?;
    show(rt, "Hard clause -256 257", job.hard(&[-256, 257]).err())?;
    show(rt, "Hard clause 1", job.hard(&[1]).err())?;
    let refusal = job.soft(Levels::new(0, 2, 0), &[-256]).err();
    show(rt, "Soft clause -256 of weight 0,2,0", refusal)?;
    let refusal = job.soft(Levels::new(0, 0, 3), &[-1]).err();
    show(rt, "Soft clause -1 of weight 0,0,3", refusal)?;
    show(
        rt,
        "Soft clause 257 of weight 0,0,3",
        job.soft(Levels::new(0, 0, 3), &[257]).err(),
    )?;
    show_end(rt, &mut job)
}

/// Shows whether a call was accepted, and else the number of the refusal and the letter of its layer.
fn show(
    rt: &impl Print,
    what: impl fmt::Display + Drop,
    refusal: Option<Refusal>,
) -> io::Result<()> {
    print!(rt; "    {what}: ")?;
    let Some(refusal) = refusal else {
        return println!(rt; "accepted.");
    };
    print!(rt; "refused with {}", refusal.number())?;
    match refusal.layer() {
        Some(layer) => println!(rt; ", layer {}.", layer.letter()),
        None => println!(rt; "."),
    }
}

/// Plays the job to its end, and shows the bracket.
fn show_end<F: Finder, C: CoverMaker>(rt: &impl Print, job: &mut Job<F, C>) -> Result<()>
where
    C::Weight: fmt::Display,
{
    let mut rounds = 0..MOST_ROUNDS;
    let refusal = rounds.find_map(|_| job.round().err());
    show(rt, "Rounds to the end; then one more", refusal)?;
    let bracket = job.bracket();
    print!(rt; "    Status {}, floor {}", job.status(), bracket.floor)?;
    match bracket.ceiling {
        Some(ceiling) => println!(rt; ", ceiling {ceiling}.")?,
        None => println!(rt; ".")?,
    }
    Ok(())
}

//! Plays jobs to their end, on both finders, on both cover makers and in both weight kinds, and shows each call with its answer
//! and the bracket.
use clause_tables::ClauseRecord;
use finder_count::CountThrough;
use finder_search::Search;
use finder_shrinking::Shrinking;
use finders::Finder;
use itertools::Itertools;
use jobs::Job;
use maker_branch::BranchAndBoundMaker;
use maker_count::CountThroughMaker;
use makers::CoverMaker;
use std::{fmt, io};
use terms::Refusal;
use weights::{Levels, Plain, WeightKind};

// 1 is the electric pump, 2 the diesel pump.
const VARIABLES: usize = 2;

// No electric pump is wanted, nor a diesel one; and then an electric pump is wanted after all.
const WISHES: [&[i32]; 3] = [&[-1], &[-2], &[1]];

// A job without end would show here: the promise for four wishes is 33 rounds.
const MOST_ROUNDS: usize = 33;

pub(crate) fn show(rt: &(impl Print + AllocGlobal)) -> io::Result<()> {
    let mut records = [ClauseRecord::blank(); 6];
    let mut literals = [0; 8];
    println!(rt; "Plain weights.")?;
    let finder = CountThrough::new(&mut records, &mut literals, VARIABLES);
    let maker = CountThroughMaker::new(rt.alloc())?;
    play_worked_example(rt, finder, maker, &[3, 5, 4].map(Plain::new))?;
    println!(rt; "Plain weights, on the search.")?;
    let finder = Search::new(&mut records, &mut literals, VARIABLES);
    let maker = CountThroughMaker::new(rt.alloc())?;
    play_worked_example(rt, finder, maker, &[3, 5, 4].map(Plain::new))?;
    println!(rt; "Plain weights, on the search and the branch-and-bound maker.")?;
    let finder = Search::new(&mut records, &mut literals, VARIABLES);
    let maker = BranchAndBoundMaker::new(rt.alloc())?;
    play_worked_example(rt, finder, maker, &[3, 5, 4].map(Plain::new))?;
    println!(rt; "Plain weights. The dear plan costs 4294967296, which 32 bits would count as 0.")?;
    let finder = CountThrough::new(&mut records, &mut literals, VARIABLES);
    let maker = CountThroughMaker::new(rt.alloc())?;
    play_worked_example(rt, finder, maker, &[3, 4_294_967_292, 4].map(Plain::new))?;
    println!(rt; "Level weights.")?;
    let weights = [
        Levels::new(0, 3, 0),
        Levels::new(0, 5, 1),
        Levels::new(1, 0, 2),
    ];
    let finder = CountThrough::new(&mut records, &mut literals, VARIABLES);
    let maker = CountThroughMaker::new(rt.alloc())?;
    play_worked_example(rt, finder, maker, &weights)?;
    println!(rt; "Level weights. The first plan is not the best, and a late wish makes it so.")?;
    let weights = [
        Levels::new(1, 0, 0),
        Levels::new(0, 9, 9),
        Levels::new(0, 0, 1),
    ];
    play_late_wish(rt, &weights, Levels::new(1, 0, 0))?;
    println!(rt; "A cover maker in use.")?;
    play_on_used_maker(rt)
}

/// A best plan, a hard clause that it breaks, a best plan again, and a hard clause that leaves none.
fn play_worked_example<F: Finder + Drop, C: CoverMaker + Drop>(
    rt: &(impl Print + AllocGlobal),
    finder: F,
    maker: C,
    weights: &[C::Weight],
) -> io::Result<()>
where
    C::Weight: fmt::Display,
{
    let mut job = Job::open(Shrinking::new(finder), maker);
    enter(rt, &mut job, weights)?;
    add_soft(rt, &mut job, C::Weight::zero(), &[2])?;
    add_hard(rt, &mut job, &[1, 3])?;
    play_rounds(rt, &mut job)?;
    add_hard(rt, &mut job, &[-1])?;
    play_rounds(rt, &mut job)?;
    add_hard(rt, &mut job, &[-2])?;
    play_rounds(rt, &mut job)
}

/// A best plan, the electric pump wanted once more, and a best plan again.
fn play_late_wish<W: WeightKind + fmt::Display>(
    rt: &(impl Print + AllocGlobal),
    weights: &[W],
    late: W,
) -> io::Result<()> {
    let mut records = [ClauseRecord::blank(); 5];
    let mut literals = [0; 6];
    let finder = CountThrough::new(&mut records, &mut literals, VARIABLES);
    let maker = CountThroughMaker::new(rt.alloc())?;
    let mut job = Job::open(Shrinking::new(finder), maker);
    enter(rt, &mut job, weights)?;
    play_rounds(rt, &mut job)?;
    add_soft(rt, &mut job, late, &[1])?;
    add_soft(rt, &mut job, late, &[1])?;
    play_rounds(rt, &mut job)
}

/// A job on a cover maker that has a weight already.
fn play_on_used_maker(rt: &(impl Print + AllocGlobal)) -> io::Result<()> {
    let mut maker = CountThroughMaker::new(rt.alloc())?;
    let _ = maker.add_weight(Plain::new(7));
    let finder = CountThrough::new(&mut [], &mut [], VARIABLES);
    let mut job = Job::open(finder, maker);
    add_hard(rt, &mut job, &[1, 2])?;
    add_soft(rt, &mut job, Plain::new(3), &[-1])?;
    play_rounds(rt, &mut job)
}

/// One pump is needed at least, and there are the wishes.
fn enter<F: Finder, C: CoverMaker>(
    rt: &(impl Print + AllocGlobal),
    job: &mut Job<F, C>,
    weights: &[C::Weight],
) -> io::Result<()>
where
    C::Weight: fmt::Display,
{
    add_hard(rt, job, &[1, 2])?;
    for (wish, weight) in WISHES.iter().zip(weights) {
        add_soft(rt, job, *weight, wish)?;
    }
    Ok(())
}

fn add_hard<F: Finder, C: CoverMaker>(
    rt: &(impl Print + AllocGlobal),
    job: &mut Job<F, C>,
    clause: &[i32],
) -> io::Result<()>
where
    C::Weight: fmt::Display,
{
    let literals = clause.iter().join(rt.alloc(), " ")?;
    print!(rt; "  Hard clause {literals} ")?;
    match job.hard(clause) {
        Ok(()) => print!(rt; "is added")?,
        Err(refusal) => show_refusal(rt, refusal)?,
    }
    show_state(rt, job)
}

fn add_soft<F: Finder, C: CoverMaker>(
    rt: &(impl Print + AllocGlobal),
    job: &mut Job<F, C>,
    weight: C::Weight,
    clause: &[i32],
) -> io::Result<()>
where
    C::Weight: fmt::Display,
{
    let literals = clause.iter().join(rt.alloc(), " ")?;
    print!(rt; "  Soft clause {literals} of weight {weight} ")?;
    match job.soft(weight, clause) {
        Ok(number) => print!(rt; "gets the number {number}")?,
        Err(refusal) => show_refusal(rt, refusal)?,
    }
    show_state(rt, job)
}

/// Calls rounds until one is refused.
fn play_rounds<F: Finder, C: CoverMaker>(
    rt: &(impl Print + AllocGlobal),
    job: &mut Job<F, C>,
) -> io::Result<()>
where
    C::Weight: fmt::Display,
{
    for number in 1..=MOST_ROUNDS {
        print!(rt; "  Round {number} ")?;
        match job.round() {
            Ok(()) => print!(rt; "is played")?,
            Err(refusal) => {
                show_refusal(rt, refusal)?;
                return show_state(rt, job);
            }
        }
        show_state(rt, job)?;
    }
    Ok(())
}

fn show_refusal(rt: &impl Print, refusal: Refusal) -> io::Result<()> {
    print!(rt; "is refused with {}", refusal.number())
}

/// The status, and the bracket with the kept plan.
fn show_state<F: Finder, C: CoverMaker>(
    rt: &(impl Print + AllocGlobal),
    job: &Job<F, C>,
) -> io::Result<()>
where
    C::Weight: fmt::Display,
{
    let bracket = job.bracket();
    print!(rt; ": {}, floor {}", job.status(), bracket.floor)?;
    let mut plan = [0; VARIABLES];
    match (bracket.ceiling, job.copy_kept(&mut plan)) {
        (Some(ceiling), Ok(())) => {
            let values = plan.iter().join(rt.alloc(), "")?;
            println!(rt; ", ceiling {ceiling}, plan {values}.")
        }
        _ => println!(rt; "."),
    }
}

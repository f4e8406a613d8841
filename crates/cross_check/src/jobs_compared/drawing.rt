//! Draws jobs: the calls of each, one after another.
use crate::drawing::draw_literals;
use crate::weighing::{Drawn, Spread, draw_weight};
use random::Xorshift;
use std::alloc::{AllocError, Global};
use std::io;
use weights::WeightKind;

/// A call of a job.
#[derive(Debug, Drop)]
pub(crate) enum Call<W: WeightKind> {
    Hard(Vec<i32>),
    Soft(W, Vec<i32>),
    /// So many rounds, or fewer where the job comes to its end.
    Rounds(u8),
    /// Rounds until the job comes to its end.
    End,
}

/// The number of variables, and the calls.
#[derive(Drop)]
pub(crate) struct Drawing<W: WeightKind> {
    pub(crate) variables: u8,
    pub(crate) calls: Vec<Call<W>>,
}

impl<W: Drawn> Drawing<W> {
    /// Shows the calls up to the one of this index.
    pub(crate) fn show(&self, rt: &impl Print, index: usize) -> io::Result<()> {
        println!(rt; "  Variables: {}.", self.variables)?;
        for call in self.calls.iter().take(index.saturating_add(1)) {
            println!(rt; "  {call:?}")?;
        }
        Ok(())
    }
}

/// Up to seven clauses of each sort, in half of the jobs some rounds and up to three more of each, and rounds to the end.
pub(crate) fn draw_job<W: Drawn>(
    alloc: Global,
    random: &mut Xorshift,
) -> Result<Drawing<W>, AllocError> {
    let spread = match random.up_to(2) {
        0 => Spread::Equal,
        1 => Spread::Small(2),
        _ => Spread::Great,
    };
    let mut job = Drawing {
        variables: random.up_to(8),
        calls: Vec::new(alloc),
    };
    draw_clauses(alloc, random, spread, 7, &mut job)?;
    if random.one_in(2) {
        job.calls.push(Call::Rounds(random.up_to(9)))?;
        draw_clauses(alloc, random, spread, 3, &mut job)?;
    }
    job.calls.push(Call::End)?;
    Ok(job)
}

/// Up to so many hard clauses and as many soft ones, in any order.
fn draw_clauses<W: Drawn>(
    alloc: Global,
    random: &mut Xorshift,
    spread: Spread,
    most: u8,
    job: &mut Drawing<W>,
) -> Result<(), AllocError> {
    let mut hards = random.up_to(most).max(random.up_to(most));
    let mut softs = random.up_to(most).max(random.up_to(most));
    for _ in 0..u16::from(hards) + u16::from(softs) {
        if hards > 0 && (softs == 0 || random.one_in(2)) {
            hards -= 1;
            let literals = draw_clause(alloc, random, 1, job)?;
            job.calls.push(Call::Hard(literals))?;
        } else {
            softs = softs.saturating_sub(1);
            let weight = draw_weight(random, spread);
            let literals = draw_clause(alloc, random, 7, job)?;
            job.calls.push(Call::Soft(weight, literals))?;
        }
    }
    Ok(())
}

/// A clause of which so many in ten have one literal, now and then with a bad literal behind the others, or one that came before.
fn draw_clause<W: Drawn>(
    alloc: Global,
    random: &mut Xorshift,
    singles: u8,
    job: &Drawing<W>,
) -> Result<Vec<i32>, AllocError> {
    let index = usize::from(random.up_to(99));
    if let Some(Call::Hard(earlier) | Call::Soft(_, earlier)) = job.calls.get(index) {
        return earlier.clone();
    }
    let size = match job.variables {
        0 => 0,
        _ => draw_size(random, singles),
    };
    let mut literals = draw_literals(alloc, random, job.variables, size)?;
    if random.one_in(80) {
        literals.push(draw_bad_literal(random, job.variables))?;
    }
    Ok(literals)
}

/// Now and then none, in so many of ten clauses one, and else two to four.
fn draw_size(random: &mut Xorshift, singles: u8) -> u8 {
    if random.one_in(40) {
        return 0;
    }
    if random.up_to(9) < singles {
        return 1;
    }
    2 + random.up_to(2)
}

/// 0, or a literal of the first variable that there is not.
fn draw_bad_literal(random: &mut Xorshift, variables: u8) -> i32 {
    let variable = 1 + i32::from(variables);
    match random.up_to(2) {
        0 => variable,
        1 => -variable,
        _ => 0,
    }
}

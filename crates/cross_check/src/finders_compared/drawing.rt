//! Draws inputs: how large each is, its clauses and its questions.
use super::inputs::{Call, Input, Kind};
use crate::drawing::draw_literals;
use random::Xorshift;
use std::alloc::{AllocError, Global};
use terms::SoftSet;
use terms::limits::{MOST_LITERALS, SOFT_PLACES};

// Enough for all clauses of an input.
const CLAUSE_PLACES: usize = 90;

const LITERAL_PLACES: usize = 600;

/// How large an input is, how many of eight clauses are hard, and how short clauses can be.
#[derive(Clone, Copy)]
struct Outline {
    variables: u8,
    clauses: u8,
    hard_of_eight: u8,
    shortest: u8,
}

impl Outline {
    /// Of fifty inputs, one has more soft clauses than a finder takes, and five have more variables than the others.
    fn draw(random: &mut Xorshift, number: usize) -> Outline {
        match number % 50 {
            0 => Outline {
                variables: 1 + random.up_to(3),
                clauses: 70 + random.up_to(9),
                hard_of_eight: 0,
                shortest: 0,
            },
            1..=5 => Outline {
                variables: 9 + random.up_to(1),
                clauses: 20 + random.up_to(20),
                hard_of_eight: random.up_to(4),
                shortest: 2 + random.up_to(1),
            },
            _ => Outline {
                variables: random.up_to(8),
                clauses: 3 + random.up_to(37),
                hard_of_eight: random.up_to(4),
                shortest: random.up_to(3),
            },
        }
    }
}

/// Draws clauses and questions, and then a few clauses more and questions again.
pub(crate) fn draw_input(
    alloc: Global,
    random: &mut Xorshift,
    number: usize,
) -> Result<Input, AllocError> {
    let outline = Outline::draw(random, number);
    let mut input = Input {
        variables: outline.variables,
        clause_places: draw_places(random, CLAUSE_PLACES),
        literal_places: draw_places(random, LITERAL_PLACES),
        calls: Vec::new(alloc),
    };
    for _ in 0..outline.clauses {
        input.calls.push(draw_clause(alloc, random, outline)?)?;
    }
    draw_questions(alloc, random, &mut input)?;
    for _ in 0..1 + random.up_to(3) {
        input.calls.push(draw_clause(alloc, random, outline)?)?;
    }
    draw_questions(alloc, random, &mut input)?;
    Ok(input)
}

/// Mostly enough places, and now and then too few.
fn draw_places(random: &mut Xorshift, enough: usize) -> usize {
    if random.one_in(10) {
        usize::from(random.up_to(39))
    } else {
        enough
    }
}

/// A hard or a soft clause, now and then with a bad literal behind the others.
fn draw_clause(alloc: Global, random: &mut Xorshift, outline: Outline) -> Result<Call, AllocError> {
    let kind = if random.up_to(7) < outline.hard_of_eight {
        Kind::Hard
    } else {
        Kind::Soft
    };
    let size = match outline.variables {
        0 => 0,
        _ => draw_size(random).max(outline.shortest),
    };
    let mut literals = draw_literals(alloc, random, outline.variables, size)?;
    if random.one_in(100) {
        literals.push(draw_bad_literal(random, outline.variables))?;
    }
    Ok(Call::Add(kind, literals))
}

/// Mostly one to three literals, and now and then as many as a clause may have, or one more.
fn draw_size(random: &mut Xorshift) -> u8 {
    match random.up_to(249) {
        0 => MOST_LITERALS as u8 + random.up_to(1),
        1..=6 => 0,
        7..=90 => 1,
        91..=180 => 2,
        181..=225 => 3,
        226..=240 => 4,
        _ => 5,
    }
}

/// 0, or a literal of a variable that there is not.
fn draw_bad_literal(random: &mut Xorshift, variables: u8) -> i32 {
    let variable = 1 + i32::from(variables) + i32::from(random.up_to(2));
    match random.up_to(3) {
        0 => variable,
        1 => -variable,
        2 => i32::MIN,
        _ => 0,
    }
}

/// Asks for some sets, and what some assignments break.
fn draw_questions(
    alloc: Global,
    random: &mut Xorshift,
    input: &mut Input,
) -> Result<(), AllocError> {
    draw_asks(random, input)?;
    for _ in 0..2 {
        let assignment = draw_assignment(alloc, random, usize::from(input.variables))?;
        input.calls.push(Call::Broken(assignment))?;
    }
    Ok(())
}

/// Asks for no soft clause, for all and for some; now and then for one that is not given, or with too short a buffer.
fn draw_asks(random: &mut Xorshift, input: &mut Input) -> Result<(), AllocError> {
    let variables = usize::from(input.variables);
    let given = input.soft_count().min(SOFT_PLACES) as u8;
    input.ask(SoftSet::empty(), variables)?;
    input.ask(SoftSet::full(usize::from(given)), variables)?;
    for _ in 0..3 {
        let set = draw_set(random, given);
        input.ask(set, variables + usize::from(random.up_to(2)))?;
    }
    if random.one_in(5) {
        let number = usize::from(given + random.up_to(2));
        input.ask(draw_set(random, given).insert(number), variables)?;
    }
    if random.one_in(5) {
        input.ask(draw_set(random, given), variables.saturating_sub(1))?;
    }
    Ok(())
}

/// Some of the lowest numbers that are given.
fn draw_set(random: &mut Xorshift, given: u8) -> SoftSet {
    let lowest = SoftSet::full(usize::from(random.up_to(given)));
    lowest.minus(SoftSet::from_mask(random.word()))
}

/// Values for the variables; now and then one too few, or with a byte that is no value, in front or behind.
fn draw_assignment(
    alloc: Global,
    random: &mut Xorshift,
    variables: usize,
) -> Result<Vec<u8>, AllocError> {
    let mut assignment = Vec::new(alloc);
    for _ in 0..variables {
        assignment.push(random.up_to(1))?;
    }
    match random.up_to(19) {
        0 => assignment.truncate(variables.saturating_sub(1)),
        1 => assignment.insert(0, 2)?,
        2 => assignment.push(2)?,
        _ => {}
    }
    Ok(assignment)
}

//! Reads a line of a session.
ghost use Rattle.std.specs.Prelude.{◌≡◌, true, false, ◌==◌, IfOk};
ghost use Rattle.texts.specs.Pieces.{left, as_numbered};
ghost use Rattle.texts.specs.Numbers.{number};
ghost use Rattle.texts.specs.Lines.{letter, form, field_said, line_said, job_said, soft_said, rounds_said, query_said};
ghost use Rattle.texts.specs.Lines.{said_in, opens_job};

use crate::faults::{FieldFault, LineFault};
use crate::numbers::{FIVE_DIGITS, read_number};
use crate::pieces::{Piece, Pieces};
use crate::weight_forms::WeightForm;
use terms::Refusal;
use terms::limits::MOST_ROUNDS;

/// What a line is, by the letter in its first field.
#[derive(Clone, Copy)]
enum Letter {
    Job,
    Hard,
    Soft,
    Rounds,
    Query,
}

/// A line that has been read. Weights and literals are still fields of the text.
#[derive(Clone, Copy, Debug)]
pub enum Line<'a> {
    Job {
        n: usize,
        form: WeightForm,
    },
    Hard {
        literals: Pieces<'a>,
    },
    Soft {
        weight: Piece<'a>,
        literals: Pieces<'a>,
    },
    Rounds {
        count: u64,
    },
    Query,
}

/// Reads the line, of which only the first one opens a job.
pub fn read_line<'a>(line: Piece<'a>) -> Result<Line<'a>, LineFault>
    ensures says { said_in result ≡ line_said (as_numbered line.entry) }
    ensures first { IfOk result (λ read. opens_job read ≡ (line.entry.number == 1)) }
{
    let number = line.number;
    let mut fields = Pieces::fields(line.bytes);
    let letter = fields.next().and_then(read_letter);
    match (letter, number == 1) {
        (Some(Letter::Job), true) => read_job(number, fields),
        (Some(Letter::Hard), false) => Ok(Line::Hard { literals: fields }),
        (Some(Letter::Soft), false) => read_soft(number, fields),
        (Some(Letter::Rounds), false) => read_rounds(number, fields),
        (Some(Letter::Query), false) => read_query(number, fields),
        _ => Err(LineFault::whole(number, Refusal::WrongLetter)),
    }
}

/// The letter that the field is.
fn read_letter(field: Piece<'_>) -> Option<Letter>
    ensures { result ≡ letter field.entry.bytes.now }
{
    let [byte] = field.bytes else {
        return None;
    };
    match char::from(*byte) {
        'j' => Some(Letter::Job),
        'h' => Some(Letter::Hard),
        's' => Some(Letter::Soft),
        'r' => Some(Letter::Rounds),
        'q' => Some(Letter::Query),
        _ => None,
    }
}

/// Line j: n and the form of the weights.
fn read_job<'a>(line: usize, mut fields: Pieces<'a>) -> Result<Line<'a>, LineFault>
    ensures says { said_in result ≡ job_said line (left fields.entry) }
    ensures first { IfOk result (λ read. opens_job read ≡ true) }
{
    let (Some(n), Some(form), None) = (fields.next(), fields.next(), fields.next()) else {
        return Err(LineFault::whole(line, Refusal::WrongFieldCount));
    };
    let n = read_count(line, n, FIVE_DIGITS)? as usize;
    let form = read_form(line, form)?;
    Ok(Line::Job { n, form })
}

/// Line s: a weight, and the literals.
fn read_soft<'a>(line: usize, mut fields: Pieces<'a>) -> Result<Line<'a>, LineFault>
    ensures says { said_in result ≡ soft_said line (left fields.entry) }
    ensures first { IfOk result (λ read. opens_job read ≡ false) }
{
    let Some(weight) = fields.next() else {
        return Err(LineFault::whole(line, Refusal::WrongFieldCount));
    };
    Ok(Line::Soft {
        weight,
        literals: fields,
    })
}

/// Line r: a count.
fn read_rounds<'a>(line: usize, mut fields: Pieces<'a>) -> Result<Line<'a>, LineFault>
    ensures says { said_in result ≡ rounds_said line (left fields.entry) }
    ensures first { IfOk result (λ read. opens_job read ≡ false) }
{
    let (Some(count), None) = (fields.next(), fields.next()) else {
        return Err(LineFault::whole(line, Refusal::WrongFieldCount));
    };
    let count = read_count(line, count, MOST_ROUNDS)?;
    Ok(Line::Rounds { count })
}

/// Line q: nothing.
fn read_query<'a>(line: usize, mut fields: Pieces<'a>) -> Result<Line<'a>, LineFault>
    ensures says { said_in result ≡ query_said line (left fields.entry) }
    ensures first { IfOk result (λ read. opens_job read ≡ false) }
{
    match fields.next() {
        Some(_) => Err(LineFault::whole(line, Refusal::WrongFieldCount)),
        None => Ok(Line::Query),
    }
}

/// A number up to `most`.
fn read_count(line: usize, field: Piece<'_>, most: u64) -> Result<u64, FieldFault>
    ensures { result ≡ field_said line (as_numbered field.entry) (number most field.entry.bytes.now) }
{
    read_number(field.bytes, most).ok_or(FieldFault::at(line, field))
}

/// The letter of a form of weights.
fn read_form(line: usize, field: Piece<'_>) -> Result<WeightForm, FieldFault>
    ensures { result ≡ field_said line (as_numbered field.entry) (form field.entry.bytes.now) }
{
    match field.bytes {
        b"p" => Ok(WeightForm::Plain),
        b"l" => Ok(WeightForm::Levels),
        _ => Err(FieldFault::at(line, field)),
    }
}

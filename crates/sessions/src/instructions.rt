//! What a line of a session tells to do.
ghost use Rattle.std.specs.Prelude.{◌≡◌};
ghost use Rattle.sessions.specs.Instructions.{Later, clause, told_by, Instructs, ReadAs, WeightOrFault};
ghost use Rattle.texts.specs.Pieces.{left, as_numbered};

use crate::faults::SessionFault;
use std::alloc::Global;
use texts::{FieldFault, Line, Piece, Pieces, WrittenWeight, read_line, read_literal};

/// A call of a job, a number of rounds at most, or the printing of the state.
#[derive(Drop)]
pub(crate) enum Instruction<W> {
    Hard { clause: Vec<i32> },
    Soft { weight: W, clause: Vec<i32> },
    Rounds { count: u64 },
    Query,
}

/// Reads a line after the first.
pub(crate) fn read_instruction<W: WrittenWeight>(
    alloc: Global,
    line: Piece<'_>,
) -> Result<Instruction<W>, SessionFault>
    requires later { Later (as_numbered line) }
    ensures { ReadAs told_by (Instructs W.kind W.form (as_numbered line.entry)) result }
{
    let number = line.number;
    match read_line(line)? {
        Line::Hard { literals } => {
            let clause = read_clause(alloc, number, literals)?;
            Ok(Instruction::Hard { clause })
        }
        Line::Soft { weight, literals } => {
            let weight = read_weight(number, weight)?;
            let clause = read_clause(alloc, number, literals)?;
            Ok(Instruction::Soft { weight, clause })
        }
        Line::Rounds { count } => Ok(Instruction::Rounds { count }),
        Line::Query => Ok(Instruction::Query),
        Line::Job { .. } => unreachable!(),
    }
}

/// The literals in these fields of a line.
fn read_clause(alloc: Global, line: usize, fields: Pieces<'_>) -> Result<Vec<i32>, SessionFault>
    ensures { ReadAs (λ v. v.items) (λ c. clause line (left fields.entry) ≡ c) result }
{
    let mut clause = Vec::new(alloc);
    for field in fields {
        let Some(literal) = read_literal(field.bytes) else {
            return Err(FieldFault::at(line, field).into());
        };
        clause.push(literal)?;
    }
    Ok(clause)
}

/// The weight in this field of a line.
fn read_weight<W: WrittenWeight>(line: usize, field: Piece<'_>) -> Result<W, FieldFault>
    ensures { WeightOrFault W.kind W.form line (as_numbered field.entry) result }
{
    W::read(field.bytes).ok_or(FieldFault::at(line, field))
}

//! Plays a line: makes the calls that it tells the job to make, and prints the state where it asks for it.
ghost use Rattle.jobs.specs.Jobs.{state};
ghost use Rattle.sessions.specs.Instructions.{Later};
ghost use Rattle.sessions.specs.Playing.{Follows, Plays};
ghost use Rattle.texts.specs.Pieces.{as_numbered};

use crate::calls::{add_hard, add_soft, play_rounds};
use crate::faults::SessionFault;
use crate::instructions::{Instruction, read_instruction};
use crate::printing::show;
use finders::Finder;
use jobs::Job;
use makers::CoverMaker;
use std::alloc::Global;
use texts::{Piece, WrittenWeight};

/// Plays a line after the first. The fault to which it comes is not printed here.
pub(crate) fn play_line<F: Finder, C: CoverMaker>(
    alloc: Global,
    job: &mut Job<F, C>,
    line: Piece<'_>,
    out: &mut String,
) -> Result<(), SessionFault>
where
    C::Weight: WrittenWeight,
    requires later { Later (as_numbered line) }
    ensures { Plays C.Weight.form line.entry (state job.old) (state job.new) out.old out.new result }
{
    let instruction = read_instruction(alloc, line)?;
    follow(alloc, job, line.number, instruction, out)
}

/// Follows an instruction: makes its calls, or prints the state.
fn follow<F: Finder, C: CoverMaker>(
    alloc: Global,
    job: &mut Job<F, C>,
    line: usize,
    instruction: Instruction<C::Weight>,
    out: &mut String,
) -> Result<(), SessionFault>
where
    C::Weight: WrittenWeight,
    ensures { Follows C.Weight.form line instruction (state job.old) (state job.new) out.old out.new result }
{
    match instruction {
        Instruction::Hard { clause } => add_hard(job, line, &clause)?,
        Instruction::Soft { weight, clause } => add_soft(job, line, weight, &clause)?,
        Instruction::Rounds { count } => play_rounds(job, line, count)?,
        Instruction::Query => show(alloc, job, out)?,
    }
    Ok(())
}

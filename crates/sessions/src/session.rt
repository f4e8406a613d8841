//! Plays the lines of a session against one job.
ghost use Rattle.std.specs.Prelude.{All, IfOk, string_bytes};
ghost use Rattle.jobs.specs.Jobs.{state};
ghost use Rattle.sessions.specs.Instructions.{Later};
ghost use Rattle.sessions.specs.Session.{Session, Begins, FaultPrinted};
ghost use Rattle.texts.specs.Pieces.{left};

use crate::faults::SessionFault;
use crate::playing::play_line;
use finders::Finder;
use jobs::Job;
use makers::CoverMaker;
use std::alloc::{AllocError, Global};
use texts::{Pieces, WrittenWeight};

/// Plays the lines against a job, and prints the fault to which each comes.
pub(crate) fn play_lines<F: Finder + Drop, C: CoverMaker + Drop>(
    alloc: Global,
    mut job: Job<F, C>,
    lines: Pieces<'_>,
) -> Result<String, AllocError>
where
    C::Weight: WrittenWeight,
    requires begins { Begins (state job) }
    requires later { All Later (left lines) }
    ensures { IfOk result (λ out. Session C.Weight.form (state job) (left lines.entry) (string_bytes out)) }
{
    let mut output = String::new(alloc);
    for line in lines {
        let played = play_line(alloc, &mut job, line, &mut output);
        print_fault(played, &mut output)?;
    }
    Ok(output)
}

/// Prints the fault of a line, if there is one, unless memory has run out.
fn print_fault(played: Result<(), SessionFault>, output: &mut String) -> Result<(), AllocError>
    ensures { IfOk result (λ _. FaultPrinted played output.old output.new) }
{
    match played {
        Ok(()) => Ok(()),
        Err(SessionFault::Line(fault)) => writeln!(output, "{fault}"),
        Err(SessionFault::Memory) => Err(AllocError),
    }
}

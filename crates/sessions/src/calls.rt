//! Makes the calls that the lines of a session ask for.
ghost use Rattle.std.specs.Prelude.{◌≡◌, ◌≤◌, ◌↔◌, IsTrue};
ghost use Rattle.terms.specs.Clauses.{first_bad};
ghost use Rattle.bracket.specs.States.{Ended};
ghost use Rattle.bracket.specs.Steps.{hard as hard_call, soft as soft_call, round as round_call};
ghost use Rattle.jobs.specs.Jobs.{state};
ghost use Rattle.sessions.specs.Calls.{clause_field, Called, PlayedRounds};

use finders::Finder;
use jobs::{Job, Status};
use makers::CoverMaker;
use terms::{Refusal, first_bad_literal};
use texts::LineFault;

/// Adds a hard clause.
pub(crate) fn add_hard<F: Finder, C: CoverMaker>(
    job: &mut Job<F, C>,
    line: usize,
    clause: &[i32],
) -> Result<(), LineFault>
    ensures { Called line (hard_call clause.now) (state job.old) (state job.new) result }
{
    let n = job.variable_count();
    job.hard(clause).map_err(|refusal| LineFault {
        line,
        field: clause_field(2, n, clause, refusal),
        refusal,
    })
}

/// Adds a soft clause.
pub(crate) fn add_soft<F: Finder, C: CoverMaker>(
    job: &mut Job<F, C>,
    line: usize,
    weight: C::Weight,
    clause: &[i32],
) -> Result<(), LineFault>
    ensures { Called line (soft_call weight clause.now) (state job.old) (state job.new) result }
{
    let n = job.variable_count();
    match job.soft(weight, clause) {
        Ok(_) => Ok(()),
        Err(refusal) => Err(LineFault {
            line,
            field: clause_field(3, n, clause, refusal),
            refusal,
        }),
    }
}

/// The field that a refused clause names, where its literals begin at the field `first`.
fn clause_field(first: usize, n: usize, clause: &[i32], refusal: Refusal) -> usize
    requires { first ≤ 3 }
    ensures { result ≡ clause_field first n clause.now refusal }
{
    match refusal {
        Refusal::BadLiteral => first_bad_literal(clause, n).map_or(0, |index| first + index),
        Refusal::ZeroWeight | Refusal::TotalNotHeld => 2,
        _ => 0,
    }
}

/// Calls rounds, at most so many.
pub(crate) fn play_rounds<F: Finder, C: CoverMaker>(
    job: &mut Job<F, C>,
    line: usize,
    count: u64,
) -> Result<(), LineFault>
    ensures { PlayedRounds line count (state job.old) (state job.new) result }
{
    for _ in 0..count {
        if has_ended(job) {
            return Ok(());
        }
        play_round(job, line)?;
    }
    Ok(())
}

/// Calls one round.
fn play_round<F: Finder, C: CoverMaker>(job: &mut Job<F, C>, line: usize) -> Result<(), LineFault>
    ensures { Called line round_call (state job.old) (state job.new) result }
{
    job.round()
        .map_err(|refusal| LineFault::whole(line, refusal))
}

/// Whether no round goes on.
fn has_ended<F: Finder, C: CoverMaker>(job: &Job<F, C>) -> bool
    ensures { IsTrue result ↔ Ended (state job.now) }
{
    matches!(job.status(), Status::Best | Status::Void)
}

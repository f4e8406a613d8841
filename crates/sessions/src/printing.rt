//! Prints the state of a job.
ghost use Rattle.std.specs.Prelude.{◌≡◌, IfOk, option_map, flat_map, decimal};
ghost use Rattle.jobs.specs.Jobs.{state};
ghost use Rattle.sessions.specs.Printing.{Adds, state_text, kept_values, plan_text, ceiling_text};

use finders::Finder;
use jobs::Job;
use makers::CoverMaker;
use std::alloc::{AllocError, Global};
use texts::WrittenWeight;

/// Prints the status, the floor, the ceiling and the kept assignment, each after a tab.
pub(crate) fn show<F: Finder, C: CoverMaker>(
    alloc: Global,
    job: &Job<F, C>,
    output: &mut String,
) -> Result<(), AllocError>
where
    C::Weight: WrittenWeight,
    ensures { IfOk result (λ _. Adds (state_text C.Weight.form (state job.now)) output.old output.new) }
{
    let bracket = job.bracket();
    let status = job.status();
    let floor = bracket.floor;
    write!(output, "q\t{status}\t{floor}\t")?;
    match (bracket.ceiling, kept_values(alloc, job)?) {
        (Some(ceiling), Some(values)) => {
            write!(output, "{ceiling}\t")?;
            put_values(output, &values)?;
        }
        _ => write!(output, "-\t-")?,
    }
    output.push('\n')
}

/// The values of the kept assignment, if there is one.
fn kept_values<F: Finder, C: CoverMaker>(
    alloc: Global,
    job: &Job<F, C>,
) -> Result<Option<Vec<u8>>, AllocError>
    ensures { IfOk result (λ kept. option_map (λ v. v.items) kept ≡ kept_values (state job.now)) }
{
    let mut values = vec![in alloc; 0; job.variable_count()]?;
    match job.copy_kept(&mut values) {
        Ok(()) => Ok(Some(values)),
        Err(_) => Ok(None),
    }
}

/// Prints each value.
fn put_values(output: &mut String, values: &[u8]) -> Result<(), AllocError>
    ensures { IfOk result (λ _. Adds (flat_map decimal values.now) output.old output.new) }
{
    for value in values {
        write!(output, "{value}")?;
    }
    Ok(())
}

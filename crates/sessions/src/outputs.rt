//! What a session text prints.
ghost use Rattle.std.specs.Prelude.{◌≡◌, ◌≤◌, IfOk, MatchResult, All, nat_lt, string_bytes, length, option_map};
ghost use Rattle.std.specs.Result.{result_err};
ghost use Rattle.finder_search.specs.Finder.{finder_meaning};
ghost use Rattle.finders.specs.Refused.{variables_refused};
ghost use Rattle.makers.specs.Meanings.{fresh};
ghost use Rattle.sessions.specs.Instructions.{Later};
ghost use Rattle.sessions.specs.Outputs.{Prints, PrintsFault, Opened, Opens, n_fault, finder};
ghost use Rattle.texts.specs.Pieces.{left};

use crate::faults::SessionFault;
use crate::session::play_lines;
use clause_tables::ClauseRecord;
use finder_search::Search;
use finder_shrinking::Shrinking;
use jobs::Job;
use maker_branch::BranchAndBoundMaker;
use makers::CoverMaker;
use std::alloc::{AllocError, Global};
use terms::Refusal;
use terms::limits::{MOST_BYTES, MOST_VARIABLES, SESSION_CLAUSES, SESSION_LITERALS, SOFT_PLACES};
use texts::{Line, LineFault, Pieces, WeightForm, WrittenWeight, read_line};
use weights::{Levels, Plain};

/// What a session text prints: its lines are played against one job, on the search under the shrinking layer
/// and on the branch-and-bound maker.
pub fn play(alloc: Global, text: &[u8]) -> Result<String, AllocError>
    ensures { IfOk result (λ out. Prints text.now (string_bytes out)) }
{
    match play_text(alloc, text) {
        Ok(output) => Ok(output),
        Err(SessionFault::Line(fault)) => format!(in alloc; "{fault}\n"),
        Err(SessionFault::Memory) => Err(AllocError),
    }
}

/// What the text prints, or the fault that is all it prints.
fn play_text(alloc: Global, text: &[u8]) -> Result<String, SessionFault>
    ensures { MatchResult result (λ out. Prints text.now (string_bytes out)) (PrintsFault text.now) }
{
    if is_too_long(text) {
        return Err(LineFault::whole(0, Refusal::TextTooLong).into());
    }
    let mut lines = Pieces::lines(text);
    let Some(first) = lines.next() else {
        return Ok(String::new(alloc));
    };
    let Line::Job { n, form } = read_line(first)? else {
        unreachable!()
    };
    check_variables(n)?;
    Ok(play_job(alloc, n, form, lines)?)
}

/// Whether a text has more bytes than are read.
fn is_too_long(text: &[u8]) -> bool
    ensures { result ≡ nat_lt MOST_BYTES (length text.now) }
{
    text.len() > MOST_BYTES
}

/// Whether the search takes so many variables.
fn check_variables(n: usize) -> Result<(), LineFault>
    ensures { result_err result ≡ option_map n_fault (variables_refused MOST_VARIABLES n) }
{
    Search::check(n).map_err(|refusal| LineFault {
        line: 1,
        field: 2,
        refusal,
    })
}

/// Plays the lines against a job whose weights are written in this form.
fn play_job(
    alloc: Global,
    n: usize,
    form: WeightForm,
    lines: Pieces<'_>,
) -> Result<String, AllocError>
    requires few { n ≤ MOST_VARIABLES }
    requires later { All Later (left lines) }
    ensures { IfOk result (λ out. Opened n form (left lines.entry) (string_bytes out)) }
{
    match form {
        WeightForm::Plain => {
            let maker = BranchAndBoundMaker::<Plain>::new(alloc)?;
            play_with(alloc, n, maker, lines)
        }
        WeightForm::Levels => {
            let maker = BranchAndBoundMaker::<Levels>::new(alloc)?;
            play_with(alloc, n, maker, lines)
        }
    }
}

/// Plays the lines against a job on this maker.
fn play_with<C: CoverMaker + Drop>(
    alloc: Global,
    n: usize,
    maker: C,
    lines: Pieces<'_>,
) -> Result<String, AllocError>
where
    C::Weight: WrittenWeight,
    requires few { n ≤ MOST_VARIABLES }
    requires fresh { C.CoverMaker.meaning maker ≡ fresh SOFT_PLACES }
    requires later { All Later (left lines) }
    ensures { IfOk result (λ o. Opens C.Weight.kind C.Weight.form n (left lines.entry) (string_bytes o)) }
{
    let mut records = vec![in alloc; ClauseRecord::blank(); SESSION_CLAUSES]?;
    let mut literals = vec![in alloc; 0; SESSION_LITERALS]?;
    let finder = make_finder(&mut records, &mut literals, n);
    play_lines(alloc, Job::open(finder, maker), lines)
}

/// The search under the shrinking layer, on these tables.
fn make_finder<'a>(
    records: &'a mut [ClauseRecord],
    literals: &'a mut [i32],
    n: usize,
) -> Shrinking<Search<'a>>
    requires records { length records.old ≡ SESSION_CLAUSES }
    requires literals { length literals.old ≡ SESSION_LITERALS }
    requires few { n ≤ MOST_VARIABLES }
    ensures { finder_meaning result ≡ finder n }
{
    Shrinking::new(Search::new(records, literals, n))
}

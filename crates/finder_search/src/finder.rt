//! The search as a finder.
ghost use Rattle.std.specs.Prelude.{◌≡◌, length, None, Ok};
ghost use Rattle.std.specs.Result.{result_err};
ghost use Rattle.finders.specs.Meanings.{Limited};
ghost use Rattle.finders.specs.Questions.{Asked};
ghost use Rattle.finders.specs.Refused.{variables_refused, ask_refused};
ghost use Rattle.clause_tables.specs.Room.{room};
ghost use Rattle.clause_tables.specs.Table.{meaning_of, made_in};
ghost use Rattle.finder_search.specs.Question.{answer_to};

use crate::question::Question;
use crate::reasons::Reason;
use crate::trail::Slot;
use clause_tables::{ClauseRecord, Room, Tables};
use finders::{Answer, Finder};
use terms::limits::MOST_VARIABLES;
use terms::{Refusal, SoftSet};

/// Finds a model for up to `MOST_VARIABLES` variables, by DPLL (Davis, Logemann and Loveland 1962) with conflict-directed
/// backjumping (Prosser 1993).
#[derive(Debug, Drop)]
pub struct Search<'a> {
    tables: Tables<'a>,
    ghost limited: { Limited (meaning_of tables) },
}

impl<'a> Search<'a> {
    ghost use Rattle.finder_search.specs.Finder.{finder_meaning};

    /// Refuses more than `MOST_VARIABLES` variables.
    pub fn check(n: usize) -> Result<(), Refusal>
        ensures { result_err result ≡ variables_refused MOST_VARIABLES n }
    {
        Room::check(n, MOST_VARIABLES)
    }

    /// A finder that admits every assignment. The lengths of the tables are its places.
    /// With more than `MOST_VARIABLES` variables it has no variables and no places.
    pub fn new(records: &'a mut [ClauseRecord], literals: &'a mut [i32], n: usize) -> Self
        ensures { finder_meaning result ≡ made_in (room MOST_VARIABLES n) records.old literals.old }
    {
        Search {
            tables: Tables::new(records, literals, n, MOST_VARIABLES),
        }
    }

    /// The answer to a question that is not refused. At a core the buffer is not touched.
    fn solve(&self, set: SoftSet, buffer: &mut [u8]) -> Answer
        requires { ask_refused (finder_meaning self.now) set buffer.old ≡ None }
        ensures { Asked (finder_meaning self.now) set buffer.old (Ok result) buffer.new }
    {
        let n = self.tables.variables();
        let mut trail = [Slot::Unset; MOST_VARIABLES];
        let question = Question::new(&self.tables, set);
        answer(question.solve(&mut trail[..n], &mut buffer[..n]))
    }
}

/// What a finder answers: the soft clauses of the reason are the core.
fn answer(outcome: Result<(), Reason>) -> Answer
    ensures { result ≡ answer_to outcome }
{
    match outcome {
        Ok(()) => Answer::Model,
        Err(reason) => Answer::Core(reason.softs),
    }
}

impl Finder for Search<'_> {
    ghost use Rattle.finder_search.specs.Finder.{finder_meaning};

    ghost meaning = { finder_meaning };

    ghost limited = { λ x. x.limited };

    fn variables(&self) -> usize {
        self.tables.variables()
    }

    fn soft_count(&self) -> usize {
        self.tables.soft_count()
    }

    fn hard_refusal(&self, clause: &[i32]) -> Option<Refusal> {
        self.tables.hard_refusal(clause)
    }

    fn soft_refusal(&self, clause: &[i32]) -> Option<Refusal> {
        self.tables.soft_refusal(clause)
    }

    fn add_hard(&mut self, clause: &[i32]) -> Result<(), Refusal> {
        self.tables.add_hard(clause)
    }

    fn add_soft(&mut self, clause: &[i32]) -> Result<(), Refusal> {
        self.tables.add_soft(clause)
    }

    fn ask(&self, set: SoftSet, buffer: &mut [u8]) -> Result<Answer, Refusal> {
        self.tables.check_question(set, buffer)?;
        Ok(self.solve(set, buffer))
    }

    fn broken(&self, assignment: &[u8]) -> Result<SoftSet, Refusal> {
        self.tables.broken(assignment)
    }
}

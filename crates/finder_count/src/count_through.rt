//! The count-through finder: it tries every assignment, and assignment number j has the binary digits of j as its values.
ghost use Rattle.std.specs.Prelude.{◌≡◌, ◌≤◌, ◌↔◌, IsTrue, length, None, Ok};
ghost use Rattle.std.specs.Result.{result_err};
ghost use Rattle.terms.specs.declared.limits.TheConstants.{MOST_COUNTED};
ghost use Rattle.finders.specs.Meanings.{Limited};
ghost use Rattle.finders.specs.Questions.{Asked};
ghost use Rattle.finders.specs.Refused.{variables_refused, ask_refused};
ghost use Rattle.clause_tables.specs.Room.{room};
ghost use Rattle.clause_tables.specs.Table.{meaning_of, made_in};
ghost use Rattle.clause_tables.specs.Wanted.{Meets};
ghost use Rattle.finder_count.specs.Assignments.{Found, digits};

use clause_tables::{ClauseRecord, Room, Tables};
use finders::{Answer, Finder};
use terms::limits::MOST_COUNTED;
use terms::{Refusal, SoftSet};

/// Finds a model by trying every assignment, for up to `MOST_COUNTED` variables.
#[derive(Debug, Drop)]
pub struct CountThrough<'a> {
    tables: Tables<'a>,
    ghost few: { tables.n ≤ MOST_COUNTED },
    ghost limited: { Limited (meaning_of tables) },
}

impl<'a> CountThrough<'a> {
    ghost use Rattle.finder_count.specs.CountThrough.{finder_meaning};

    /// Refuses more than `MOST_COUNTED` variables.
    pub fn check(n: usize) -> Result<(), Refusal>
        ensures { result_err result ≡ variables_refused MOST_COUNTED n }
    {
        Room::check(n, MOST_COUNTED)
    }

    /// A finder that admits every assignment. The lengths of the tables are its places.
    /// With more than `MOST_COUNTED` variables it has no variables and no places.
    pub fn new(records: &'a mut [ClauseRecord], literals: &'a mut [i32], n: usize) -> Self
        ensures { finder_meaning result ≡ made_in (room MOST_COUNTED n) records.old literals.old }
    {
        CountThrough {
            tables: Tables::new(records, literals, n, MOST_COUNTED),
        }
    }

    /// The answer to a question that is not refused. At a core the buffer is not touched.
    fn try_all(&self, set: SoftSet, buffer: &mut [u8]) -> Answer
        requires { ask_refused (finder_meaning self.now) set buffer.old ≡ None }
        ensures { Asked (finder_meaning self.now) set buffer.old (Ok result) buffer.new }
    {
        match self.first_model(set) {
            Some(number) => {
                let n = self.tables.variables();
                write_digits(&mut buffer[..n], number);
                Answer::Model
            }
            None => Answer::Core(set),
        }
    }

    /// The number of the first assignment that is a model, if one is.
    fn first_model(&self, set: SoftSet) -> Option<u32>
        ensures { Found (finder_meaning self.now) set result }
    {
        (0..1 << self.tables.variables()).find(|number| self.is_model(set, *number))
    }

    /// Whether the assignment with this number is a model.
    fn is_model(&self, set: SoftSet, number: u32) -> bool
        ensures { IsTrue result ↔ Meets (finder_meaning self.now) set (digits (finder_meaning self.now).n number) }
    {
        let mut values = [0; MOST_COUNTED];
        let trial = &mut values[..self.tables.variables()];
        write_digits(trial, number);
        self.tables.meets(set, trial)
    }
}

impl Finder for CountThrough<'_> {
    ghost use Rattle.finder_count.specs.CountThrough.{finder_meaning};

    ghost meaning = { finder_meaning };

    ghost limited = { λ x. x.limited };

    fn variables(&self) -> usize {
        self.tables.variables()
    }

    fn soft_count(&self) -> usize {
        self.tables.soft_count()
    }

    fn hard_refusal(&self, clause: &[i32]) -> Option<Refusal> {
        self.tables.hard_refusal(clause)
    }

    fn soft_refusal(&self, clause: &[i32]) -> Option<Refusal> {
        self.tables.soft_refusal(clause)
    }

    fn add_hard(&mut self, clause: &[i32]) -> Result<(), Refusal> {
        self.tables.add_hard(clause)
    }

    fn add_soft(&mut self, clause: &[i32]) -> Result<(), Refusal> {
        self.tables.add_soft(clause)
    }

    fn ask(&self, set: SoftSet, buffer: &mut [u8]) -> Result<Answer, Refusal> {
        self.tables.check_question(set, buffer)?;
        Ok(self.try_all(set, buffer))
    }

    fn broken(&self, assignment: &[u8]) -> Result<SoftSet, Refusal> {
        self.tables.broken(assignment)
    }
}

/// Fills the bytes with the binary digits of a number, lowest first.
#[tactic(auto, using(crate::proofs::Digits::digit_written))]
fn write_digits(bytes: &mut [u8], number: u32)
    ensures { bytes.new ≡ digits (length bytes.old) number }
{
    let mut rest = number;
    for byte in bytes.iter_mut() {
        *byte = u8::from(rest % 2 == 1);
        rest /= 2;
    }
}

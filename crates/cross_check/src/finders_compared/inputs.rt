//! What both finders are given: tables of some lengths, and calls one after another.
use std::alloc::AllocError;
use std::io;
use terms::limits::MOST_LITERALS;
use terms::{SoftSet, first_bad_literal};

/// Whether a clause is hard or soft.
#[derive(Clone, Copy, PartialEq, Eq, Debug)]
pub(crate) enum Kind {
    Hard,
    Soft,
}

/// A call that is made on both finders.
#[derive(Debug, Drop)]
pub(crate) enum Call {
    /// Adds the clause.
    Add(Kind, Vec<i32>),
    /// Asks for the set with a buffer of so many bytes.
    Ask { set: SoftSet, bytes: usize },
    /// Asks what the assignment breaks.
    Broken(Vec<u8>),
}

/// The number of variables, the lengths of the two tables, and the calls.
#[derive(Drop)]
pub(crate) struct Input {
    pub(crate) variables: u8,
    pub(crate) clause_places: usize,
    pub(crate) literal_places: usize,
    pub(crate) calls: Vec<Call>,
}

impl Input {
    /// How many soft clauses are accepted as long as there are places.
    pub(crate) fn soft_count(&self) -> usize {
        let variables = usize::from(self.variables);
        let is_taken = |clause: &[i32]| {
            clause.len() <= MOST_LITERALS && first_bad_literal(clause, variables).is_none()
        };
        let calls = self.calls.iter();
        calls
            .filter(|call| matches!(call, Call::Add(Kind::Soft, clause) if is_taken(clause)))
            .count()
    }

    pub(crate) fn ask(&mut self, set: SoftSet, bytes: usize) -> Result<(), AllocError> {
        Ok(self.calls.push(Call::Ask { set, bytes })?)
    }

    /// Shows the sizes, and the calls up to the one of this index.
    pub(crate) fn show(&self, rt: &impl Print, index: usize) -> io::Result<()> {
        println!(rt;
            "Variables: {}; clause places: {}; literal places: {}.",
            self.variables, self.clause_places, self.literal_places
        )?;
        for call in self.calls.iter().take(index.saturating_add(1)) {
            println!(rt; "  {call:?}")?;
        }
        Ok(())
    }
}

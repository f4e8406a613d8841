//! Makes the same calls on two finders and compares what they answer.
use super::accepted::{Accepted, UNTOUCHED};
use super::inputs::{Call, Kind};
use crate::faults::{Fault, same};
use crate::tally::Outcome;
use finders::{Answer, Finder};
use std::alloc::Global;
use terms::limits::MOST_VARIABLES;
use terms::{Refusal, SoftSet};

/// Two finders, of which the first is plainly right, and the clauses that both have accepted.
#[derive(Drop)]
pub(crate) struct Pair<'a, F, G> {
    pub(crate) reference: F,
    pub(crate) tested: G,
    pub(crate) accepted: Accepted<'a>,
    pub(crate) alloc: Global,
}

impl<'a, F: Finder, G: Finder> Pair<'a, F, G> {
    /// Finders that are to have so many variables and no clause.
    pub(crate) fn new(alloc: Global, reference: F, tested: G, variables: usize) -> Self {
        Pair {
            reference,
            tested,
            accepted: Accepted::new(alloc, variables),
            alloc,
        }
    }

    /// Makes the call on both finders, and tells what came of it.
    pub(crate) fn make(&mut self, call: &'a Call) -> Result<Outcome, Fault> {
        let outcome = match call {
            Call::Add(kind, clause) => self.add(*kind, clause)?,
            Call::Ask { set, bytes } => self.ask(*set, *bytes)?,
            Call::Broken(assignment) => self.compare_broken(assignment)?,
        };
        self.compare_counts()?;
        Ok(outcome)
    }

    fn add(&mut self, kind: Kind, clause: &'a [i32]) -> Result<Outcome, Fault> {
        let first = add(&mut self.reference, kind, clause)?;
        let second = add(&mut self.tested, kind, clause)?;
        Ok(match same(first, second, Fault::Refusals)? {
            Some(refusal) => Outcome::ClauseRefused(refusal.number()),
            None => {
                self.accepted.add(kind, clause)?;
                Outcome::Accepted
            }
        })
    }

    /// Asks both for the set, each with a buffer of its own.
    fn ask(&self, set: SoftSet, bytes: usize) -> Result<Outcome, Fault> {
        let mut buffer = vec![in self.alloc; UNTOUCHED; bytes]?;
        let mut other = vec![in self.alloc; UNTOUCHED; bytes]?;
        let first = self.reference.ask(set, &mut buffer);
        let second = self.tested.ask(set, &mut other);
        self.accepted.check(set, first, &buffer)?;
        self.accepted.check(set, second, &other)?;
        match (first, second) {
            (Ok(first), Ok(second)) => Ok(self.compare_answers(set, first, second)?),
            (Err(first), Err(second)) => {
                let refusal = same(first, second, Fault::Refusals)?;
                Ok(Outcome::QuestionRefused(refusal.number()))
            }
            _ => Err(Fault::Refusals),
        }
    }

    /// Both answer a model, or both a core.
    pub(crate) fn compare_answers(
        &self,
        set: SoftSet,
        first: Answer,
        second: Answer,
    ) -> Result<Outcome, Fault> {
        match (first, second) {
            (Answer::Model, Answer::Model) => Ok(Outcome::Model),
            (Answer::Core(_), Answer::Core(core)) => {
                self.confirm(core)?;
                Ok(if core == set {
                    Outcome::WholeCore
                } else {
                    Outcome::SmallerCore
                })
            }
            _ => Err(Fault::Answers),
        }
    }

    /// The first finder has no model for the core of the second.
    fn confirm(&self, core: SoftSet) -> Result<(), Fault> {
        let mut buffer = [UNTOUCHED; MOST_VARIABLES];
        match self.reference.ask(core, &mut buffer) {
            Ok(Answer::Core(_)) => Ok(()),
            _ => Err(Fault::NoCore),
        }
    }

    fn compare_broken(&self, assignment: &[u8]) -> Result<Outcome, Fault> {
        let first = self.reference.broken(assignment);
        let second = self.tested.broken(assignment);
        match (first, second) {
            (Ok(first), Ok(second)) => {
                if first != second || first != self.accepted.broken_by(assignment) {
                    return Err(Fault::Broken);
                }
                Ok(Outcome::Broken)
            }
            (Err(first), Err(second)) => {
                let refusal = same(first, second, Fault::Refusals)?;
                Ok(Outcome::AssignmentRefused(refusal.number()))
            }
            _ => Err(Fault::Refusals),
        }
    }

    /// Both have the variables of the input, and the soft clauses that were accepted.
    fn compare_counts(&self) -> Result<(), Fault> {
        let variables = self.accepted.variables;
        same(self.reference.variables(), variables, Fault::Variables)?;
        same(self.tested.variables(), variables, Fault::Variables)?;
        let softs = self.accepted.softs.len();
        same(self.reference.soft_count(), softs, Fault::SoftCounts)?;
        same(self.tested.soft_count(), softs, Fault::SoftCounts)?;
        Ok(())
    }
}

/// Adds the clause to one finder, and answers why it was refused, if it was.
fn add<F: Finder>(finder: &mut F, kind: Kind, clause: &[i32]) -> Result<Option<Refusal>, Fault> {
    let (told, outcome) = match kind {
        Kind::Hard => (finder.hard_refusal(clause), finder.add_hard(clause)),
        Kind::Soft => (finder.soft_refusal(clause), finder.add_soft(clause)),
    };
    same(told, outcome.err(), Fault::ToldOtherwise)
}

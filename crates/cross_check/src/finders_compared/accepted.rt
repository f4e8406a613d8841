//! The clauses that both finders have taken, kept apart from them, and what answers have to keep to.
use super::inputs::Kind;
use crate::faults::Fault;
use finders::Answer;
use std::alloc::{AllocError, Global};
use terms::{Refusal, SoftSet, is_binary, satisfies};

/// What each byte of a buffer is before a question.
pub(crate) const UNTOUCHED: u8 = 7;

/// The number of variables, and the clauses in their order.
#[derive(Drop)]
pub(crate) struct Accepted<'a> {
    pub(crate) variables: usize,
    pub(crate) hards: Vec<&'a [i32]>,
    pub(crate) softs: Vec<&'a [i32]>,
}

impl<'a> Accepted<'a> {
    pub(crate) fn new(alloc: Global, variables: usize) -> Accepted<'a> {
        Accepted {
            variables,
            hards: Vec::new(alloc),
            softs: Vec::new(alloc),
        }
    }

    pub(crate) fn add(&mut self, kind: Kind, clause: &'a [i32]) -> Result<(), AllocError> {
        match kind {
            Kind::Hard => self.hards.push(clause)?,
            Kind::Soft => self.softs.push(clause)?,
        }
        Ok(())
    }

    /// The soft clauses that the assignment breaks.
    pub(crate) fn broken_by(&self, assignment: &[u8]) -> SoftSet {
        let mut broken = SoftSet::empty();
        for (number, clause) in self.softs.iter().enumerate() {
            if !satisfies(assignment, clause) {
                broken = broken.insert(number);
            }
        }
        broken
    }

    /// Checks what came of the question for the set, with what is in the buffer after it.
    pub(crate) fn check(
        &self,
        set: SoftSet,
        outcome: Result<Answer, Refusal>,
        buffer: &[u8],
    ) -> Result<(), Fault> {
        match outcome {
            Ok(answer) => self.check_answer(set, answer, buffer),
            Err(_) => check_untouched(buffer),
        }
    }

    fn check_answer(&self, set: SoftSet, answer: Answer, buffer: &[u8]) -> Result<(), Fault> {
        match answer {
            Answer::Model => self.check_model(set, buffer),
            Answer::Core(core) => check_core(set, core, buffer),
        }
    }

    /// A model satisfies what was asked for, and leaves the rest of the buffer.
    fn check_model(&self, set: SoftSet, buffer: &[u8]) -> Result<(), Fault> {
        let parts = buffer.split_at_checked(self.variables);
        let (model, rest) = parts.ok_or(Fault::ShortBuffer)?;
        let mut hards = self.hards.iter();
        if !is_binary(model)
            || !hards.all(|clause| satisfies(model, clause))
            || self.broken_by(model).intersects(set)
        {
            return Err(Fault::NoModel);
        }
        check_untouched(rest)
    }
}

/// A core lies within the set, and leaves the whole buffer.
fn check_core(set: SoftSet, core: SoftSet, buffer: &[u8]) -> Result<(), Fault> {
    if !core.is_subset(set) {
        return Err(Fault::CoreOutside);
    }
    check_untouched(buffer)
}

/// Bytes that no answer may write.
fn check_untouched(bytes: &[u8]) -> Result<(), Fault> {
    if bytes.iter().any(|byte| *byte != UNTOUCHED) {
        return Err(Fault::Written);
    }
    Ok(())
}

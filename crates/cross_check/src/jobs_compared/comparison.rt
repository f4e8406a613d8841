//! Gives the same clauses to a job and to the second solver, and compares what they say.
use super::counts::Counts;
use super::drawing::Call;
use super::enumeration::{Cost, Enumeration};
use super::reckoning::Reckoned;
use super::said::Said;
use crate::faults::{Fault, same};
use crate::tally::Outcome;
use finders::Finder;
use jobs::Job;
use makers::CoverMaker;
use std::alloc::{AllocError, Global};
use std::io;
use terms::Refusal;

// One more than the promise for ten soft clauses, since the last round is refused.
const MOST_ROUNDS: u16 = 2050;

// What a round is refused with after the end.
const FINISHED: u8 = 7;

/// A job, and an enumeration that was given the clauses that the job has accepted.
#[derive(Drop)]
pub(crate) struct Comparison<F: Finder, C: CoverMaker> {
    pub(crate) job: Job<F, C>,
    pub(crate) enumeration: Enumeration,
    alloc: Global,
}

impl<F: Finder, C: CoverMaker> Comparison<F, C>
where
    C::Weight: Reckoned,
{
    pub(crate) fn new(alloc: Global, job: Job<F, C>, variables: u8) -> Comparison<F, C> {
        Comparison {
            job,
            enumeration: Enumeration::new(alloc, variables),
            alloc,
        }
    }

    /// Makes the call, and counts what comes of it.
    pub(crate) fn make(
        &mut self,
        call: &Call<C::Weight>,
        counts: &mut Counts,
    ) -> Result<(), Fault> {
        match call {
            Call::Hard(clause) => {
                counts.count_clause(self.add_hard(clause)?, Outcome::HardAdded)?;
            }
            Call::Soft(weight, clause) => {
                counts.count_clause(self.add_soft(*weight, clause)?, Outcome::SoftAdded)?;
            }
            Call::Rounds(most) => {
                self.play(u16::from(*most), counts)?;
            }
            Call::End => {
                let said = self.play(MOST_ROUNDS, counts)?;
                if !said.has_ended() {
                    return Err(Fault::NoEnd);
                }
                counts.count_end(said.ceiling)?;
            }
        }
        Ok(())
    }

    /// Adds the clause to both, or tells what it is refused with.
    fn add_hard(&mut self, clause: &[i32]) -> Result<Option<u8>, Fault> {
        let refusal = self.enumeration.hard_refusal(clause);
        if accepted(self.job.hard(clause), refusal)?.is_some() {
            self.enumeration.add_hard(clause)?;
        }
        Ok(refusal)
    }

    /// Adds the clause to both, or tells what it is refused with.
    fn add_soft(&mut self, weight: C::Weight, clause: &[i32]) -> Result<Option<u8>, Fault> {
        let (cost, most) = (weight.read(), C::Weight::MOST);
        let refusal = self.enumeration.soft_refusal(cost, clause, most);
        if let Some(number) = accepted(self.job.soft(weight, clause), refusal)? {
            same(number, self.enumeration.soft_count(), Fault::SoftNumber)?;
            self.enumeration.add_soft(cost, clause)?;
        }
        Ok(refusal)
    }

    /// Plays so many rounds, or fewer where the job comes to its end, and checks what it says before the first and after each.
    /// Tells what it says last.
    fn play(&mut self, most: u16, counts: &mut Counts) -> Result<Said, Fault> {
        let least = self.enumeration.least_cost();
        let mut said = self.check(least)?;
        for _ in 0..most {
            let refusal = said.has_ended().then_some(FINISHED);
            if accepted(self.job.round(), refusal)?.is_none() {
                break;
            }
            counts.tally.count(Outcome::Round)?;
            said = self.check(least)?;
        }
        Ok(said)
    }

    /// What the job says, checked with the least cost that the enumeration found.
    fn check(&self, least: Option<Cost>) -> Result<Said, Fault> {
        let said = self.said()?;
        said.check(&self.enumeration, least)?;
        Ok(said)
    }

    fn said(&self) -> Result<Said, AllocError> {
        let bracket = self.job.bracket();
        let mut values = vec![in self.alloc; 0; self.job.variable_count()]?;
        let plan = match self.job.copy_kept(&mut values) {
            Ok(()) => Some(values),
            Err(_) => None,
        };
        Ok(Said {
            status: self.job.status(),
            floor: bracket.floor.read(),
            ceiling: bracket.ceiling.map(|ceiling| ceiling.read()),
            plan,
        })
    }

    /// Shows what each of the two says.
    pub(crate) fn show(&self, rt: &impl Print) -> io::Result<()> {
        let (said, least) = (self.said()?, self.enumeration.least_cost());
        println!(rt; "  The job: {said:?}")?;
        println!(rt; "  The enumeration: {least:?}")
    }
}

/// What the job answers to a call that both accept, or none where both refuse it alike.
fn accepted<T: Drop>(answer: Result<T, Refusal>, refusal: Option<u8>) -> Result<Option<T>, Fault> {
    let (answer, got) = match answer {
        Ok(answer) => (Some(answer), None),
        Err(refusal) => (None, Some(refusal.number())),
    };
    same(got, refusal, Fault::Refusals)?;
    Ok(answer)
}

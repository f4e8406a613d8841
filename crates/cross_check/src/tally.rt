//! What came of calls, and how often.
use std::alloc::{AllocError, Global};
use std::collections::BTreeMap;
use std::{fmt, io};

/// What came of a call, with the number of the refusal where there is one. The cases stand in the order in which they are shown.
#[derive(Clone, Copy, PartialEq, Eq, PartialOrd, Ord, Debug)]
pub(crate) enum Outcome {
    Accepted,
    HardAdded,
    SoftAdded,
    WeightAdded,
    CoreAdded,
    CostTold,
    ClauseRefused(u8),
    CallRefused(u8),
    Model,
    /// The core of the tested finder is all of the set.
    WholeCore,
    SmallerCore,
    QuestionRefused(u8),
    Broken,
    AssignmentRefused(u8),
    CoversCompared,
    /// Quick covers that cost the least, of each maker.
    CountedLeast,
    BranchedLeast,
    Round,
    Void,
    Best,
    /// A best plan that breaks soft clauses.
    Costly,
}

impl fmt::Display for Outcome {
    fn fmt<W: fmt::Write>(&self, f: &mut fmt::Formatter<W>) -> fmt::Result {
        f.write_str(match self {
            Outcome::Accepted => "Clauses accepted",
            Outcome::HardAdded => "Hard clauses added",
            Outcome::SoftAdded => "Soft clauses added",
            Outcome::WeightAdded => "Weights added",
            Outcome::CoreAdded => "Cores added",
            Outcome::CostTold => "Sets of which both told the cost",
            Outcome::ClauseRefused(number) => return write!(f, "Clauses refused with {number}"),
            Outcome::CallRefused(number) => return write!(f, "Calls refused with {number}"),
            Outcome::Model => "Questions answered with a model",
            Outcome::WholeCore => "Questions answered with the whole set as the core",
            Outcome::SmallerCore => "Questions answered with a smaller core",
            Outcome::QuestionRefused(number) => return write!(f, "Questions refused with {number}"),
            Outcome::Broken => "Assignments accepted",
            Outcome::AssignmentRefused(number) => {
                return write!(f, "Assignments refused with {number}");
            }
            Outcome::CoversCompared => "Times that covers were compared",
            Outcome::CountedLeast => "Quick covers of the count-through maker that cost the least",
            Outcome::BranchedLeast => {
                "Quick covers of the branch-and-bound maker that cost the least"
            }
            Outcome::Round => "Rounds played",
            Outcome::Void => "Jobs that ended void",
            Outcome::Best => "Jobs that ended with a best plan",
            Outcome::Costly => "Of these plans, such as break soft clauses",
        })
    }
}

/// How often each outcome came.
#[derive(Drop)]
pub(crate) struct Tally {
    times: BTreeMap<Outcome, u64>,
}

impl Tally {
    pub(crate) fn new(alloc: Global) -> Tally {
        Tally {
            times: BTreeMap::new(alloc),
        }
    }

    pub(crate) fn count(&mut self, outcome: Outcome) -> Result<(), AllocError> {
        let times = self.times.entry(outcome)?.or_insert(0);
        *times = times.saturating_add(1);
        Ok(())
    }

    pub(crate) fn show(&self, rt: &impl Print) -> io::Result<()> {
        for (outcome, times) in &self.times {
            println!(rt; "  {outcome}: {times}.")?;
        }
        Ok(())
    }
}

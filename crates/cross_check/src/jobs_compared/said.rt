//! What a job says at some point, and how it may disagree with the second solver.
use super::enumeration::{Cost, Enumeration};
use crate::faults::Fault;
use jobs::Status;

/// The status, the bracket, and the plan that is kept.
#[derive(Debug, Drop)]
pub(crate) struct Said {
    pub(crate) status: Status,
    pub(crate) floor: Cost,
    pub(crate) ceiling: Option<Cost>,
    pub(crate) plan: Option<Vec<u8>>,
}

impl Said {
    pub(crate) fn has_ended(&self) -> bool {
        matches!(self.status, Status::Best | Status::Void)
    }

    /// Checks all of it with an enumeration of the same clauses, and the least cost that this one found.
    pub(crate) fn check(
        &self,
        enumeration: &Enumeration,
        least: Option<Cost>,
    ) -> Result<(), Fault> {
        self.check_plan(enumeration)?;
        if least.is_some_and(|least| least < self.floor) {
            return Err(Fault::Floor);
        }
        match self.status {
            Status::Void if least.is_some() => Err(Fault::NotVoid),
            Status::Best if least != Some(self.floor) || least != self.ceiling => {
                Err(Fault::NotBest)
            }
            _ => Ok(()),
        }
    }

    /// A plan that is kept is allowed, and costs what the ceiling says.
    fn check_plan(&self, enumeration: &Enumeration) -> Result<(), Fault> {
        match (&self.plan, self.ceiling) {
            (None, None) => Ok(()),
            (Some(plan), Some(ceiling)) => {
                let cost = enumeration.cost_of_values(plan);
                if cost.ok_or(Fault::NotAllowed)? != ceiling {
                    return Err(Fault::Ceiling);
                }
                Ok(())
            }
            _ => Err(Fault::OneAlone),
        }
    }
}

//! What the jobs of one weight kind came to.
use super::enumeration::{Cost, add};
use super::reckoning::Reckoned;
use crate::tally::{Outcome, Tally};
use itertools::Itertools;
use std::alloc::{AllocError, Global};
use std::io;

/// What came of calls, and what the best plans cost.
#[derive(Drop)]
pub(crate) struct Counts {
    pub(crate) tally: Tally,
    greatest: Cost,
    total: Cost,
}

impl Counts {
    pub(crate) fn new(alloc: Global) -> Counts {
        Counts {
            tally: Tally::new(alloc),
            greatest: [0; 3],
            total: [0; 3],
        }
    }

    /// A clause that was added, or was refused with this number.
    pub(crate) fn count_clause(
        &mut self,
        refusal: Option<u8>,
        added: Outcome,
    ) -> Result<(), AllocError> {
        self.tally.count(match refusal {
            Some(number) => Outcome::ClauseRefused(number),
            None => added,
        })
    }

    /// A job that ended, with the cost of its best plan if there is one.
    pub(crate) fn count_end(&mut self, cost: Option<Cost>) -> Result<(), AllocError> {
        let Some(cost) = cost else {
            return self.tally.count(Outcome::Void);
        };
        self.tally.count(Outcome::Best)?;
        if cost != [0; 3] {
            self.tally.count(Outcome::Costly)?;
        }
        add(&mut self.total, cost);
        if self.greatest < cost {
            self.greatest = cost;
        }
        Ok(())
    }

    pub(crate) fn show<W: Reckoned>(&self, rt: &(impl Print + AllocGlobal)) -> io::Result<()> {
        self.tally.show(rt)?;
        let greatest = written::<W>(rt.alloc(), self.greatest)?;
        println!(rt; "  The greatest cost of a best plan: {greatest}.")?;
        let total = written::<W>(rt.alloc(), self.total)?;
        println!(rt; "  The cost of all best plans together: {total}.")
    }
}

/// A cost in the form of the weight kind, however large it is.
fn written<W: Reckoned>(alloc: Global, cost: Cost) -> Result<String, AllocError> {
    cost.iter().take(W::NUMBERS).join(alloc, ",")
}

//! The two clause tables that a finder is lent.
use clause_tables::ClauseRecord;
use finder_count::CountThrough;
use finder_search::Search;
use std::alloc::{AllocError, Global};

#[derive(Drop)]
pub(crate) struct Tables {
    records: Vec<ClauseRecord>,
    literals: Vec<i32>,
}

impl Tables {
    /// Tables with places for so many clauses and literals.
    pub(crate) fn new(
        alloc: Global,
        clauses: usize,
        literals: usize,
    ) -> Result<Tables, AllocError> {
        Ok(Tables {
            records: vec![in alloc; ClauseRecord::blank(); clauses]?,
            literals: vec![in alloc; 0; literals]?,
        })
    }

    pub(crate) fn count_through(&mut self, variables: usize) -> CountThrough<'_> {
        CountThrough::new(&mut self.records, &mut self.literals, variables)
    }

    pub(crate) fn search(&mut self, variables: usize) -> Search<'_> {
        Search::new(&mut self.records, &mut self.literals, variables)
    }
}

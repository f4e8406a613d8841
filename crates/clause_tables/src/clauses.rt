//! The clauses of the tables, one after another.
ghost use Rattle.std.specs.Prelude.{◌≡◌, map, length, All};
ghost use Rattle.std.specs.Iterator.{YieldsFirstBy, item_count};
ghost use Rattle.clause_tables.specs.Entries.{LiesWithin, entry, as_entry};

use crate::records::{Clause, ClauseRecord};
use std::marker::Model;

/// Goes over the clauses with these records, and is seen as the list of those that are left.
#[derive(Debug, Drop)]
pub struct Clauses<'a> {
    records: &'a [ClauseRecord],
    literals: &'a [i32],
}

impl<'a> Model for Clauses<'a> {
    ghost use Rattle.std.specs.Prelude.{List, map, length, All};
    ghost use Rattle.clause_tables.specs.Entries.{Entry, LiesWithin, entry};

    ghost Value = { List Entry };

    ghost view = { λ c. map (entry c.literals.now) c.records.now };

    ghost invariant = { λ c. All (LiesWithin (length c.literals.now)) c.records.now };
}

impl<'a> Clauses<'a> {
    /// The clauses of the records, in order.
    pub(crate) fn new(records: &'a [ClauseRecord], literals: &'a [i32]) -> Self
        requires { All (LiesWithin (length literals.now)) records.now }
        ensures { result ≡ map (entry literals.now) records.now }
    {
        Clauses { records, literals }
    }
}

impl<'a> Iterator for Clauses<'a> {
    type Item = Clause<'a>;

    ghost next_gives = { YieldsFirstBy as_entry (λ rest. rest) };

    ghost remaining = { item_count (λ rest. rest) };

    fn next(&mut self) -> Option<Clause<'a>> {
        let (record, others) = self.records.split_first()?;
        self.records = others;
        Some(record.clause(self.literals))
    }
}

//! What the search is asked: for a model of the hard clauses and some soft ones.
ghost use Rattle.std.specs.Prelude.{◌≡◌, ◌≤◌, All, IsTrue};
ghost use Rattle.terms.specs.Masks.{below};
ghost use Rattle.terms.specs.declared.limits.TheConstants.{MOST_VARIABLES, SOFT_PLACES};
ghost use Rattle.clause_tables.specs.Entries.{IsProper, numbered};
ghost use Rattle.finder_search.specs.Occurrences.{Indexed};
ghost use Rattle.finder_search.specs.Query.{asking};

use crate::occurrences::Occurrences;
use clause_tables::Tables;
use terms::SoftSet;

/// The clauses, the soft ones that are asked for, and in which of these each literal occurs.
#[derive(Debug, Drop)]
pub(crate) struct Question<'t> {
    pub(crate) tables: &'t Tables<'t>,
    pub(crate) set: SoftSet,
    pub(crate) occurrences: Occurrences,
    ghost few: { tables.now.n ≤ MOST_VARIABLES },
    ghost known: { IsTrue (below SOFT_PLACES set) },
    ghost ordered: { IsTrue (numbered 0 tables.now.entries) },
    ghost proper: { All (IsProper tables.now.n) tables.now.entries },
    ghost indexed: { Indexed (asking tables.now set) occurrences },
}

impl<'t> Question<'t> {
    ghost use Rattle.finder_search.specs.Question.{query};

    pub(crate) fn new(tables: &'t Tables<'t>, set: SoftSet) -> Question<'t>
        requires few { tables.now.n ≤ MOST_VARIABLES }
        requires known { IsTrue (below SOFT_PLACES set) }
        ensures { query result ≡ asking tables.now set }
    {
        // The proof learns here that literals are proper, and that soft clauses have their numbers in order.
        let _ = tables.clauses();
        Question {
            tables,
            set,
            occurrences: Occurrences::of(tables, set),
        }
    }
}

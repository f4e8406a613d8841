//! In which clauses a literal occurs.
ghost use Rattle.std.specs.Prelude.{◌≡◌, ℤ, ◌+◌, ◌<◌, ◌≤◌, false, [], length, All};
ghost use Rattle.std.specs.Iterator.{YieldsFirst, item_count};
ghost use Rattle.terms.specs.Clauses.{bad_literal};
ghost use Rattle.terms.specs.declared.limits.TheConstants.{TABLE_PLACES};
ghost use Rattle.clause_tables.specs.Entries.{IsProper, as_entry};
ghost use Rattle.finder_search.specs.Literals.{row};

use crate::literals::{LITERAL_ROWS, row_of};
use clause_tables::{Clause, Tables};
use std::marker::Model;
use terms::SoftSet;
use terms::limits::{MOST_VARIABLES, TABLE_PLACES};

/// The number of a clause in which a literal occurs, and the head of the chain of the older ones.
#[derive(Clone, Copy, Debug)]
pub(crate) struct Node {
    number: u16,
    next: u16,
}

/// For each literal the numbers of the clauses in which it occurs, as a chain of nodes.
#[derive(Debug, Drop)]
pub(crate) struct Occurrences {
    /// The head of each literal's chain: 0 where it is empty, else the number of its newest node, from 1.
    heads: [u16; LITERAL_ROWS],
    /// The nodes in use are the first ones, each newer than those before it.
    nodes: [Node; TABLE_PLACES],
    used: usize,
    ghost roomy: { used ≤ TABLE_PLACES },
    ghost rooted: { All (λ head. head ≤ used) heads },
}

impl Occurrences {
    ghost use Rattle.finder_search.specs.Occurrences.{AddsClause, Indexed, PushesNumber, numbers_with};
    ghost use Rattle.finder_search.specs.Query.{asking};

    /// The occurrences in the clauses that a model for the set has to satisfy.
    #[tactic(auto, using(crate::proofs::Occurring::coming_here, crate::proofs::Occurring::all_told))]
    pub(crate) fn of(tables: &Tables<'_>, set: SoftSet) -> Occurrences
        ensures { Indexed (asking tables.now set) result }
    {
        let mut occurrences = Occurrences::none();
        let mut number = 0;
        for clause in tables.clauses() {
            occurrences.add(clause, set, number);
            number += 1;
        }
        occurrences
    }

    fn none() -> Occurrences
        ensures used { result.used ≡ 0 }
        ensures none { (l : ℤ) → numbers_with result l ≡ [] }
    {
        Occurrences {
            heads: [0; LITERAL_ROWS],
            nodes: [Node { number: 0, next: 0 }; TABLE_PLACES],
            used: 0,
        }
    }

    /// Adds the literals of the clause with this number, where a model for the set has to satisfy it.
    #[tactic(auto, using(crate::proofs::Occurring::literal_added))]
    fn add(&mut self, clause: Clause<'_>, set: SoftSet, number: u16)
        requires proper { IsProper MOST_VARIABLES (as_entry clause) }
        requires room { self.old.used + length clause.literals.now ≤ TABLE_PLACES }
        ensures used { self.new.used ≤ self.old.used + length clause.entry.literals.now }
        ensures added { AddsClause self.old self.new set number (as_entry clause.entry) }
    {
        if !clause.kind.is_wanted(set) {
            return;
        }
        for &literal in clause.literals {
            self.push(literal, number);
        }
    }

    /// Puts the number in front of the literal's chain.
    #[tactic(auto, using(crate::proofs::Occurring::pushed), unfolding(crate::specs::Occurrences::numbers_with))]
    fn push(&mut self, literal: i32, number: u16)
        requires proper { bad_literal MOST_VARIABLES literal ≡ false }
        requires room { self.old.used < TABLE_PLACES }
        ensures used { self.new.used ≡ self.old.used + 1 }
        ensures pushed { PushesNumber self.old self.new literal number }
    {
        let row = row_of(literal);
        let next = self.heads[row];
        self.nodes[self.used] = Node { number, next };
        self.used += 1;
        self.heads[row] = self.used as u16;
    }

    /// The numbers of the clauses in which the literal occurs.
    #[tactic(auto, unfolding(crate::specs::Occurrences::numbers_with))]
    pub(crate) fn with(&self, literal: i32) -> Numbers<'_>
        requires { bad_literal MOST_VARIABLES literal ≡ false }
        ensures { result ≡ numbers_with self.now literal }
    {
        Numbers {
            nodes: &self.nodes[..self.used],
            head: self.heads[row_of(literal)],
        }
    }
}

/// Goes along a chain of nodes, and is seen as the numbers that are left.
#[derive(Debug, Drop)]
pub(crate) struct Numbers<'a> {
    nodes: &'a [Node],
    head: u16,
}

impl<'a> Model for Numbers<'a> {
    ghost use Rattle.std.specs.Prelude.{List, ℕ, reverse};
    ghost use Rattle.finder_search.specs.Occurrences.{chain};

    ghost Value = { List ℕ };

    ghost view = { λ c. chain (reverse c.nodes.now) c.head };
}

impl<'a> Iterator for Numbers<'a> {
    type Item = u16;

    ghost next_gives = { YieldsFirst (λ rest. rest) };

    ghost remaining = { item_count (λ rest. rest) };

    #[tactic(auto, using(crate::proofs::Occurring::past_along, crate::proofs::Occurring::none_along, crate::proofs::Occurring::one_along))]
    fn next(&mut self) -> Option<u16> {
        let (node, older) = self.nodes.get(..usize::from(self.head))?.split_last()?;
        self.nodes = older;
        self.head = node.next;
        Some(node.number)
    }
}

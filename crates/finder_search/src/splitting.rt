//! DPLL: deciding one truth of a variable and then the other.
ghost use Rattle.std.specs.Prelude.{◌≡◌, ◌≤◌, IfSome, option_map, length, replicate};
ghost use Rattle.clause_tables.specs.Entries.{IsProper, as_entry};
ghost use Rattle.finder_search.specs.Literals.{negated};
ghost use Rattle.finder_search.specs.Propagation.{Quiet, Sound, no_clause};
ghost use Rattle.finder_search.specs.Question.{query};
ghost use Rattle.finder_search.specs.Splitting.{JustDecided, Next, OpenIn, Ready, Solved, SolvedWith};
ghost use Rattle.finder_search.specs.Trail.{Extends, Unassigned};

use crate::clause_status::{ClauseStatus, status_of};
use crate::literals::{index_of, opposite};
use crate::order::{is_short, short_first};
use crate::question::Question;
use crate::reasons::Reason;
use crate::scores::Scores;
use crate::trail::{Slot, Trial, decide, write_model};
use clause_tables::Clause;
use terms::limits::TABLE_PLACES;

/// A literal to try, and how many clauses at the front of the order are met.
#[derive(Clone, Copy, Debug)]
struct Pick {
    literal: i32,
    met: usize,
}

impl Question<'_> {
    /// Solves it on a trail without a value.
    pub(crate) fn solve(&self, trail: &mut [Slot], buffer: &mut [u8]) -> Result<(), Reason>
        requires unset { trail.old ≡ replicate self.now.tables.now.n Slot.Unset }
        requires long { length buffer.old ≡ self.now.tables.now.n }
        ensures { Solved (query self.now) trail.old buffer.old result buffer.new }
    {
        self.propagate_at_root(trail)?;
        let mut order = [0; TABLE_PLACES];
        let count = short_first(self.tables, &mut order);
        self.try_next(trail, buffer, 0, &mut order[..count])
    }

    /// Tries the next variable, where there is one to try; else the values are a model.
    #[cycle(trying)]
    fn try_next(
        &self,
        trail: &mut [Slot],
        buffer: &mut [u8],
        level: u16,
        order: &mut [u16],
    ) -> Result<(), Reason>
        requires { Ready (query self.now) level trail.old buffer.old }
        ensures same { trail.new ≡ trail.old }
        ensures answer { Solved (query self.now) trail.old buffer.old result buffer.new }
    {
        match self.next_literal(trail, order) {
            Some(next) => self.split(next.literal, trail, buffer, level, &mut order[next.met..]),
            None => {
                write_model(trail, buffer);
                Ok(())
            }
        }
    }

    /// Tries the literal, and then its opposite: conflict-directed backjumping spares the second where the first failed for a
    /// reason without this decision.
    #[cycle(trying)]
    fn split(
        &self,
        literal: i32,
        trail: &mut [Slot],
        buffer: &mut [u8],
        level: u16,
        order: &mut [u16],
    ) -> Result<(), Reason>
        requires ready { Ready (query self.now) level trail.old buffer.old }
        requires unassigned { Unassigned trail.old literal }
        ensures same { trail.new ≡ trail.old }
        ensures answer { Solved (query self.now) trail.old buffer.old result buffer.new }
    {
        let index = index_of(literal);
        let Err(first) = self.try_literal(literal, trail, buffer, level, order) else {
            return Ok(());
        };
        if !first.decisions.has(index) {
            return Err(first);
        }
        let Err(second) = self.try_opposite(literal, trail, buffer, level, order) else {
            return Ok(());
        };
        if !second.decisions.has(index) {
            return Err(second);
        }
        Err(first.joined(second, index))
    }

    /// Solves it with the literal false.
    #[cycle(trying)]
    #[tactic(auto, using(crate::proofs::LiteralLaws::index_negated, crate::proofs::LiteralLaws::positive_negated, crate::proofs::LiteralLaws::bad_negated))]
    fn try_opposite(
        &self,
        literal: i32,
        trail: &mut [Slot],
        buffer: &mut [u8],
        level: u16,
        order: &mut [u16],
    ) -> Result<(), Reason>
        requires ready { Ready (query self.now) level trail.old buffer.old }
        requires unassigned { Unassigned trail.old literal }
        ensures same { trail.new ≡ trail.old }
        ensures answer { SolvedWith (query self.now) trail.old (negated literal) buffer.old result buffer.new }
    {
        self.try_literal(opposite(literal), trail, buffer, level, order)
    }

    /// Solves it with the literal true, and unsets all that this sets.
    #[cycle(trying)]
    fn try_literal(
        &self,
        literal: i32,
        trail: &mut [Slot],
        buffer: &mut [u8],
        level: u16,
        order: &mut [u16],
    ) -> Result<(), Reason>
        requires ready { Ready (query self.now) level trail.old buffer.old }
        requires unassigned { Unassigned trail.old literal }
        ensures same { trail.new ≡ trail.old }
        ensures answer { SolvedWith (query self.now) trail.old literal buffer.old result buffer.new }
    {
        let deeper = level + 1;
        let trial = Trial { trail, level };
        decide(trial.trail, literal, deeper);
        self.propagate_decision(literal, trial.trail, buffer, deeper, order)
    }

    /// Propagates the literal, which was just decided, and then tries the next variable.
    #[cycle(trying)]
    fn propagate_decision(
        &self,
        literal: i32,
        trail: &mut [Slot],
        buffer: &mut [u8],
        level: u16,
        order: &mut [u16],
    ) -> Result<(), Reason>
        requires { JustDecided (query self.now) literal level trail.old buffer.old }
        ensures extends { Extends level trail.old trail.new }
        ensures answer { Solved (query self.now) trail.old buffer.old result buffer.new }
    {
        self.propagate(literal, trail, level)?;
        self.try_next(trail, buffer, level, order)
    }

    /// What to try next: nothing, where the values are a model.
    fn next_literal(&self, trail: &[Slot], order: &mut [u16]) -> Option<Pick>
        requires sound { Sound (query self.now) trail.now }
        requires quiet { Quiet (query self.now) no_clause trail.now }
        ensures literal { Next (query self.now) trail.now (option_map (λ n. n.literal) result) }
        ensures met { IfSome result (λ n. n.met ≤ length order.new) }
    {
        if let Some(pick) = self.best_literal(trail, order) {
            return Some(pick);
        }
        let literal = self.any_literal(trail)?;
        Some(Pick { literal, met: 0 })
    }

    /// The literal with the best score in the clauses of the order, where one is open. Those that are met come to its front.
    #[tactic(auto, using(crate::proofs::Belonging::listed_belongs))]
    fn best_literal(&self, trail: &[Slot], order: &mut [u16]) -> Option<Pick>
        requires wide { length trail.now ≡ self.now.tables.now.n }
        ensures literal { IfSome result (λ n. Unassigned trail.now n.literal) }
        ensures met { IfSome result (λ n. n.met ≤ length order.new) }
    {
        let mut scores = Scores::new();
        let mut open = None;
        let mut met = 0;
        for index in 0..order.len() {
            let Some(clause) = self.tables.clause(usize::from(order[index])) else {
                continue;
            };
            let Some(literal) = self.open_literal(clause, trail) else {
                order.swap(met, index);
                met += 1;
                continue;
            };
            open = Some(literal);
            scores.add(clause.literals, trail);
            if scores.are_enough() && !is_short(clause) {
                break;
            }
        }
        let literal = scores.best(trail, open?);
        Some(Pick { literal, met })
    }

    /// A literal without a value, of any clause that is wanted and has no true one.
    fn any_literal(&self, trail: &[Slot]) -> Option<i32>
        requires sound { Sound (query self.now) trail.now }
        requires quiet { Quiet (query self.now) no_clause trail.now }
        ensures { Next (query self.now) trail.now result }
    {
        for clause in self.tables.clauses() {
            if let Some(literal) = self.open_literal(clause, trail) {
                return Some(literal);
            }
        }
        None
    }

    /// A literal without a value, of a clause that is wanted and has no true one.
    fn open_literal(&self, clause: Clause<'_>, trail: &[Slot]) -> Option<i32>
        requires proper { IsProper self.now.tables.now.n (as_entry clause) }
        requires wide { length trail.now ≡ self.now.tables.now.n }
        ensures { OpenIn (query self.now) trail.now (as_entry clause.entry) result }
    {
        if !clause.kind.is_wanted(self.set) {
            return None;
        }
        match status_of(clause.literals, trail) {
            ClauseStatus::Open(literal) => Some(literal),
            ClauseStatus::Satisfied | ClauseStatus::Broken | ClauseStatus::Unit(_) => None,
        }
    }
}

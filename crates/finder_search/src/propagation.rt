//! Unit propagation.
ghost use Rattle.std.specs.Prelude.{◌≡◌, false};
ghost use Rattle.terms.specs.Clauses.{bad_literal};
ghost use Rattle.clause_tables.specs.Entries.{as_entry};
ghost use Rattle.finder_search.specs.ClauseStatus.{status};
ghost use Rattle.finder_search.specs.Propagation.{ImpliesLast, IsAsked, Propagated, PropagatedLiteral, Sound, each_clause, one_clause};
ghost use Rattle.finder_search.specs.Question.{query};
ghost use Rattle.finder_search.specs.Reasons.{Excludes, IsReason};
ghost use Rattle.finder_search.specs.Trail.{Extends, decisions};
ghost use Rattle.finder_search.specs.declared.clause_status.ClauseStatus.TheVariants.{Broken, Unit as UnitClause};

use crate::clause_status::{ClauseStatus, status_of};
use crate::literals::opposite;
use crate::question::Question;
use crate::reasons::Reason;
use crate::trail::{Slot, imply};
use clause_tables::Clause;

impl Question<'_> {
    /// Propagation while nothing is decided: visits every clause.
    #[tactic(auto, using(crate::proofs::Extending::extends_same, crate::proofs::Extending::extends_more))]
    pub(crate) fn propagate_at_root(&self, trail: &mut [Slot]) -> Result<(), Reason>
        requires { Sound (query self.now) trail.old }
        ensures extends { Extends 0 trail.old trail.new }
        ensures sound { Sound (query self.now) trail.new }
        ensures propagated { Propagated (query self.now) each_clause trail.old result trail.new }
    {
        for number in 0..self.tables.clause_count() {
            self.visit(number, trail, 0)?;
        }
        Ok(())
    }

    /// Propagates the literal, which is true now: visits each clause that loses its opposite.
    #[cycle(propagating)]
    #[tactic(auto, using(crate::proofs::Extending::extends_more, crate::proofs::Visiting::visited_none, crate::proofs::Visiting::visited_all))]
    pub(crate) fn propagate(
        &self,
        literal: i32,
        trail: &mut [Slot],
        level: u16,
    ) -> Result<(), Reason>
        requires proper { bad_literal self.now.tables.now.n literal ≡ false }
        requires sound { Sound (query self.now) trail.old }
        ensures extends { Extends level trail.old trail.new }
        ensures sound { Sound (query self.now) trail.new }
        ensures propagated { PropagatedLiteral (query self.now) literal trail.old result trail.new }
    {
        for number in self.occurrences.with(opposite(literal)) {
            self.visit(usize::from(number), trail, level)?;
        }
        Ok(())
    }

    /// Visits the clause with this number. Where it is unit, its last literal is implied, and propagated in turn.
    #[cycle(propagating)]
    #[tactic(auto, using(crate::proofs::Extending::extends_more, crate::proofs::Belonging::listed_belongs, crate::proofs::Visiting::visited_last))]
    fn visit(&self, number: usize, trail: &mut [Slot], level: u16) -> Result<(), Reason>
        requires { Sound (query self.now) trail.old }
        ensures extends { Extends level trail.old trail.new }
        ensures sound { Sound (query self.now) trail.new }
        ensures propagated { Propagated (query self.now) (one_clause number) trail.old result trail.new }
    {
        let Some(clause) = self.tables.clause(number) else {
            return Ok(());
        };
        if !clause.kind.is_wanted(self.set) {
            return Ok(());
        }
        match status_of(clause.literals, trail) {
            ClauseStatus::Satisfied | ClauseStatus::Open(_) => Ok(()),
            ClauseStatus::Broken => Err(self.conflict(clause, trail)),
            ClauseStatus::Unit(literal) => {
                self.imply_last(literal, clause, trail, level);
                self.propagate(literal, trail, level)
            }
        }
    }

    /// Why no model is left, where the clause is broken.
    fn conflict(&self, clause: Clause<'_>, trail: &[Slot]) -> Reason
        requires asked { IsAsked (query self.now) (as_entry clause) }
        requires sound { Sound (query self.now) trail.now }
        requires broken { status trail.now clause.literals.now ≡ Broken }
        ensures excludes { Excludes (query self.now) (decisions trail.now) result }
        ensures reason { IsReason trail.now (as_entry clause.entry) result }
    {
        Reason::of(clause, trail)
    }

    /// Makes the last literal of the unit clause true.
    fn imply_last(&self, literal: i32, clause: Clause<'_>, trail: &mut [Slot], level: u16)
        requires asked { IsAsked (query self.now) (as_entry clause) }
        requires sound { Sound (query self.now) trail.old }
        requires unit { status trail.old clause.literals.now ≡ UnitClause literal }
        ensures { ImpliesLast (query self.now) level trail.old trail.new (as_entry clause.entry) literal }
    {
        let reason = Reason::of(clause, trail);
        imply(trail, literal, level, reason);
    }
}

//! The clauses of a finder in two lent tables: making these, adding to them and reading them.
ghost use Rattle.std.specs.Prelude.{◌≡◌, ◌≤◌, ◌↔◌, IsTrue, ℕ, min, All, length, None, slice_get, option_map};
ghost use Rattle.std.specs.Result.{result_err};
ghost use Rattle.terms.specs.Clauses.{breaks};
ghost use Rattle.terms.specs.Masks.{member};
ghost use Rattle.terms.specs.Earliest.{Changes};
ghost use Rattle.finders.specs.Meanings.{Limited, with_hard, with_soft};
ghost use Rattle.finders.specs.Questions.{ToldBroken};
ghost use Rattle.finders.specs.Refused.{hard_refused, soft_refused, ask_refused, broken_refused};
ghost use Rattle.clause_tables.specs.Entries.{IsProper, as_entry, literal_count, softs, numbered, well_numbered};
ghost use Rattle.clause_tables.specs.Table.{meaning_of, made_in, refused_as, with_clause, with_entry};
ghost use Rattle.clause_tables.specs.Room.{room};
ghost use Rattle.clause_tables.specs.Wanted.{Meets};

use crate::clauses::Clauses;
use crate::lent::Lent;
use crate::records::{Clause, ClauseKind, ClauseRecord};
use crate::room::Room;
use std::marker::Model;
use terms::limits::{MOST_LITERALS, MOST_VARIABLES, TABLE_PLACES};
use terms::{Part, Refusal, SoftSet, first_bad_literal, is_binary, satisfies};

/// The records of the clauses, and their literals one clause after another.
#[derive(Debug, Drop)]
pub struct Tables<'a> {
    records: Lent<'a, ClauseRecord>,
    literals: Lent<'a, i32>,
    /// How many clauses are soft, and how many can be.
    softs: usize,
    limit: usize,
    /// The number of variables.
    n: usize,
}

impl<'a> Model for Tables<'a> {
    ghost use Rattle.clause_tables.specs.Table.{Table};

    ghost Value = { Table };

    ghost use Rattle.clause_tables.specs.Tables.{table_of, IsValid};

    ghost view = { table_of };

    ghost invariant = { IsValid };
}

impl<'a> Tables<'a> {
    /// Tables without a clause, for a finder that takes up to `most` variables, and never more than any finder has.
    /// With more than that they are for no variables and have no places.
    pub fn new(
        records: &'a mut [ClauseRecord],
        literals: &'a mut [i32],
        n: usize,
        most: usize,
    ) -> Self
        ensures meaning { meaning_of result ≡ made_in (room (min most MOST_VARIABLES) n) records.old literals.old }
        ensures limited { Limited (meaning_of result) }
    {
        let room = Room::new(n, most.min(MOST_VARIABLES));
        let clause_places = records.len().min(room.places);
        let literal_places = literals.len().min(room.places);
        Tables {
            records: Lent::new(&mut records[..clause_places]),
            literals: Lent::new(&mut literals[..literal_places]),
            softs: 0,
            limit: room.softs,
            n: room.variables,
        }
    }

    /// The kind of the next soft clause.
    fn next_soft(&self) -> ClauseKind
        ensures { result ≡ ClauseKind.Soft (length (softs self.now.entries)) }
    {
        ClauseKind::Soft(self.softs as u8)
    }

    /// Why adding the hard clause would be refused, if it would.
    pub fn hard_refusal(&self, clause: &[i32]) -> Option<Refusal>
        ensures { result ≡ hard_refused (meaning_of self.now) clause.now }
    {
        self.check_clause(ClauseKind::Hard, clause).err()
    }

    /// Why adding the soft clause would be refused, if it would.
    pub fn soft_refusal(&self, clause: &[i32]) -> Option<Refusal>
        ensures { result ≡ soft_refused (meaning_of self.now) clause.now }
    {
        self.check_clause(self.next_soft(), clause).err()
    }

    /// Adds the hard clause behind the others.
    pub fn add_hard(&mut self, clause: &[i32]) -> Result<(), Refusal>
        ensures refusal { result_err result ≡ hard_refused (meaning_of self.old) clause.now }
        ensures meaning { Changes result (λ m. with_hard m clause.now) (meaning_of self.old) (meaning_of self.new) }
        ensures limited { Limited (meaning_of self.new) }
    {
        self.add(ClauseKind::Hard, clause)
    }

    /// Adds the soft clause behind the others.
    pub fn add_soft(&mut self, clause: &[i32]) -> Result<(), Refusal>
        ensures refusal { result_err result ≡ soft_refused (meaning_of self.old) clause.now }
        ensures meaning { Changes result (λ m. with_soft m clause.now) (meaning_of self.old) (meaning_of self.new) }
        ensures limited { Limited (meaning_of self.new) }
    {
        let kind = self.next_soft();
        self.add(kind, clause)
    }

    /// Refuses the clause where it cannot be added.
    fn check_clause(&self, kind: ClauseKind, clause: &[i32]) -> Result<(), Refusal>
        ensures { result_err result ≡ refused_as kind (meaning_of self.now) clause.now }
    {
        if clause.len() > MOST_LITERALS {
            Err(Refusal::ClauseTooLong)
        } else if first_bad_literal(clause, self.n).is_some() {
            Err(Refusal::BadLiteral)
        } else if kind.is_soft() && self.softs == self.limit {
            Err(Refusal::NoSoftPlace(Part::Finder))
        } else if self.records.free() == 0 || self.literals.free() < clause.len() {
            Err(Refusal::NoClausePlace)
        } else {
            Ok(())
        }
    }

    /// Adds the clause behind the others.
    #[tactic(auto, using(crate::proofs::Pushed::means_with_clause, crate::proofs::Pushed::limited_push))]
    fn add(&mut self, kind: ClauseKind, clause: &[i32]) -> Result<(), Refusal>
        requires { IsTrue (well_numbered (length (softs self.old.entries)) kind) }
        ensures refusal { result_err result ≡ refused_as kind (meaning_of self.old) clause.now }
        ensures meaning { Changes result (λ m. with_clause kind m clause.now) (meaning_of self.old) (meaning_of self.new) }
        ensures limited { Limited (meaning_of self.new) }
    {
        // The proof learns here what always holds of the tables.
        let _ = &self.records;
        self.check_clause(kind, clause)?;
        self.push(kind, clause);
        Ok(())
    }

    /// Writes the clause behind the others.
    fn push(&mut self, kind: ClauseKind, clause: &[i32])
        requires fine { refused_as kind (meaning_of self.old) clause.now ≡ None }
        requires number { IsTrue (well_numbered (length (softs self.old.entries)) kind) }
        ensures { self.new ≡ with_entry self.old (record { kind = kind; clause = clause.now }) }
    {
        self.records.push(ClauseRecord {
            place: self.literals.items().len() as u16,
            size: clause.len() as u8,
            kind,
        });
        self.literals.extend(clause);
        self.softs = kind.softs_after(self.softs);
    }

    /// The number of variables.
    pub fn variables(&self) -> usize
        ensures { result ≡ self.now.n }
    {
        self.n
    }

    /// The number of soft clauses.
    pub fn soft_count(&self) -> usize
        ensures { result ≡ length (softs self.now.entries) }
    {
        self.softs
    }

    /// The number of clauses.
    pub fn clause_count(&self) -> usize
        ensures { result ≡ length self.now.entries }
    {
        self.records.items().len()
    }

    /// The clauses in the order in which they were added.
    #[tactic(auto, using(crate::proofs::Proper::all_proper))]
    pub fn clauses(&self) -> Clauses<'_>
        ensures clauses { result ≡ self.now.entries }
        ensures numbered { IsTrue (numbered 0 self.now.entries) }
        ensures proper { All (IsProper self.now.n) self.now.entries }
        ensures limited { Limited (meaning_of self.now) }
        ensures few { length self.now.entries ≤ TABLE_PLACES }
        ensures short { literal_count self.now.entries ≤ TABLE_PLACES }
    {
        Clauses::new(self.records.items(), self.literals.items())
    }

    /// The clause with this number, from 0, in the order in which they were added.
    #[tactic(auto, using(crate::proofs::Proper::all_proper))]
    pub fn clause(&self, number: usize) -> Option<Clause<'_>>
        ensures clause { option_map as_entry result ≡ slice_get self.now.entries number }
        ensures proper { All (IsProper self.now.n) self.now.entries }
    {
        let record = self.records.items().get(number)?;
        Some(record.clause(self.literals.items()))
    }

    /// Refuses to be asked for the set with the buffer where either does not fit.
    pub fn check_question(&self, set: SoftSet, buffer: &[u8]) -> Result<(), Refusal>
        ensures { result_err result ≡ ask_refused (meaning_of self.now) set buffer.now }
    {
        if buffer.len() < self.n {
            Err(Refusal::TooShort)
        } else if !set.all_below(self.softs) {
            Err(Refusal::UnknownSoft)
        } else {
            Ok(())
        }
    }

    /// Whether the assignment satisfies the hard clauses and those of the set.
    pub fn meets(&self, set: SoftSet, assignment: &[u8]) -> bool
        ensures { IsTrue result ↔ Meets (meaning_of self.now) set assignment.now }
    {
        self.clauses().all(|clause| clause.is_met(set, assignment))
    }

    /// Which soft clauses the assignment in the first n bytes breaks.
    pub fn broken(&self, assignment: &[u8]) -> Result<SoftSet, Refusal>
        ensures refusal { result_err result ≡ broken_refused (meaning_of self.now) assignment.now }
        ensures answer { ToldBroken (meaning_of self.now) assignment.now result }
    {
        let assignment = assignment.get(..self.n).ok_or(Refusal::TooShort)?;
        if !is_binary(assignment) {
            return Err(Refusal::BadByte);
        }
        Ok(self.broken_by(assignment))
    }

    /// Which soft clauses the assignment breaks.
    #[tactic(auto, using(crate::proofs::Breaking::broken_is, terms::proofs::ClauseLaws::all_fit))]
    fn broken_by(&self, assignment: &[u8]) -> SoftSet
        ensures { (k : ℕ) → member result k ≡ breaks assignment.now (meaning_of self.now).softs k }
    {
        let mut broken = SoftSet::empty();
        for clause in self.clauses() {
            if let ClauseKind::Soft(number) = clause.kind
                && !satisfies(assignment, clause.literals)
            {
                broken = broken.insert(usize::from(number));
            }
        }
        broken
    }
}

//! Cover makers: which soft clauses are best given up, told by a trait with one meaning.
#![tactic(auto)]

mod cover_maker;

pub use cover_maker::CoverMaker;

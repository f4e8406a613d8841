//! Examples at the edges of what the library crates take, with values worked out by hand. They stand in a crate of their own, since
//! a crate with tests is proved twice.
#![tactic(auto)]

#[cfg(test)]
mod clauses;
#[cfg(test)]
mod covers;
#[cfg(test)]
mod lines;
#[cfg(test)]
mod refusals;
#[cfg(test)]
mod sets;
#[cfg(test)]
mod tables;
#[cfg(test)]
mod totals;

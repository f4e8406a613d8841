//! The core store: the weights and the kept cores of a cover maker, with the rules that every maker follows.
#![tactic(auto)]

mod store;

pub use store::Store;

//! The count-through finder: it tries every assignment.
#![tactic(auto)]

mod count_through;

pub use count_through::CountThrough;

//! The count-through maker: it finds a least cover by trying every set.
#![tactic(auto)]

mod count_through;

pub use count_through::CountThroughMaker;

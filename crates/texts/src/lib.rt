//! Session texts: lines, fields, and what they say.
#![tactic(auto)]

mod faults;
mod lines;
mod numbers;
mod pieces;
mod weight_forms;

pub use faults::{FieldFault, LineFault};
pub use lines::{Line, read_line};
pub use numbers::{read_literal, read_number};
pub use pieces::{Piece, Pieces};
pub use weight_forms::{WeightForm, WrittenWeight};

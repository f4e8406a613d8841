//! What is wrong with a field, and with a line.
ghost use Rattle.std.specs.Prelude.{◌≡◌, Some};
ghost use Rattle.terms.specs.Refusals.{layer_of};
ghost use Rattle.texts.specs.Faults.{field_fault, whole_line, fault_text, malformed, letter_or_dash};
ghost use Rattle.texts.specs.Pieces.{as_numbered};

use crate::pieces::Piece;
use std::fmt;
use terms::Refusal;

/// A field that is not written as asked.
#[derive(Clone, Copy, PartialEq, Eq, Debug)]
pub struct FieldFault {
    pub line: usize,
    pub field: usize,
}

/// A line that is refused, at one of its fields or as a whole: field 0. Line 0 is the whole text.
#[derive(Clone, Copy, PartialEq, Eq, Debug)]
pub struct LineFault {
    pub line: usize,
    pub field: usize,
    pub refusal: Refusal,
}

impl FieldFault {
    /// The fault of this field of the line.
    pub fn at(line: usize, field: Piece<'_>) -> FieldFault
        ensures { result ≡ field_fault line (as_numbered field.entry) }
    {
        FieldFault {
            line,
            field: field.number,
        }
    }
}

impl LineFault {
    /// A line that is refused as a whole.
    pub fn whole(line: usize, refusal: Refusal) -> LineFault
        ensures { result ≡ whole_line line refusal }
    {
        LineFault {
            line,
            field: 0,
            refusal,
        }
    }

    /// The letter of the layer, where the refusal has one.
    fn letter(&self) -> char
        ensures { result ≡ letter_or_dash (layer_of self.now.refusal) }
    {
        match self.refusal.layer() {
            Some(layer) => layer.letter(),
            None => '-',
        }
    }
}

impl From<FieldFault> for LineFault {
    ghost from_gives = { λ fault r. r ≡ malformed fault };

    fn from(fault: FieldFault) -> LineFault {
        LineFault {
            line: fault.line,
            field: fault.field,
            refusal: Refusal::MalformedField,
        }
    }
}

impl fmt::Display for LineFault {
    ghost output = { λ fault. Some (fault_text fault) };

    fn fmt<W: fmt::Write>(&self, f: &mut fmt::Formatter<W>) -> fmt::Result {
        write!(
            f,
            "x\t{}\t{}\t{}\t{}",
            self.line,
            self.field,
            self.letter(),
            self.refusal.number()
        )
    }
}

//! How the weights of each kind are written in a text.
ghost use Rattle.std.specs.Prelude.{◌≡◌};
ghost use Rattle.texts.specs.Cuts.{pieces};
ghost use Rattle.texts.specs.WeightForms.{weight_numbers, WeightRead, WeightSaid, DisplaysIn, amount, three_of};
ghost use Rattle.std.proofs.Common.{rules};

use crate::numbers::read_number;
use crate::pieces::cut_at;
use std::fmt;
use weights::{Levels, Plain, WeightKind};

/// How the weights of a session are written.
#[derive(Clone, Copy, PartialEq, Eq, Debug)]
pub enum WeightForm {
    /// One number.
    Plain,
    /// Three numbers with commas between them.
    Levels,
}

/// A kind whose weights are read from texts, and written as the kind displays them.
pub trait WrittenWeight: WeightKind + fmt::Display {
    ghost use Rattle.texts.specs.declared.weight_forms.WeightForm.{WeightForm};

    ghost form: { WeightForm };

    /// The form of the weights.
    fn form() -> WeightForm
        ensures { result ≡ form };

    /// The weight that the field says, if the kind can hold it.
    fn read(field: &[u8]) -> Option<Self>
        ensures { WeightSaid Self.kind form field.now result }
    {
        Self::from_numbers(Self::form().read(field)?)
    }

    ghost displayed: { DisplaysIn Self.kind form Self.output };
}

impl WrittenWeight for Plain {
    ghost use Rattle.texts.specs.declared.weight_forms.WeightForm.TheVariants.{Plain};

    ghost form = { Plain };

    ghost displayed = { Prim.search rules };

    fn form() -> WeightForm {
        WeightForm::Plain
    }
}

impl WrittenWeight for Levels {
    ghost use Rattle.texts.specs.declared.weight_forms.WeightForm.TheVariants.{Levels};

    ghost form = { Levels };

    ghost displayed = { Prim.search rules };

    fn form() -> WeightForm {
        WeightForm::Levels
    }
}

impl WeightForm {
    /// The three numbers of a weight; a plain weight has the first one, and then zeros.
    #[tactic(auto, using(crate::proofs::WeightTexts::weight_laws))]
    pub fn read(self, field: &[u8]) -> Option<(u64, u64, u64)>
        ensures value { result ≡ weight_numbers self field.now }
        ensures means { WeightRead self field.now result }
    {
        match self {
            WeightForm::Plain => Some((read_amount(field)?, 0, 0)),
            WeightForm::Levels => read_levels(field),
        }
    }
}

/// Three numbers with commas between them.
#[tactic(auto, using(crate::proofs::Levels::levels_by_cut))]
fn read_levels(field: &[u8]) -> Option<(u64, u64, u64)>
    ensures { result ≡ three_of (pieces 44 field.now) }
{
    let (first, rest) = cut_at(field, b',')?;
    let (second, third) = cut_at(rest, b',')?;
    Some((
        read_amount(first)?,
        read_amount(second)?,
        read_amount(third)?,
    ))
}

/// One of the numbers of a weight.
fn read_amount(field: &[u8]) -> Option<u64>
    ensures { result ≡ amount field.now }
{
    read_number(field, u64::MAX)
}

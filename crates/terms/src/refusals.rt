//! What a call can be refused for, with the number and the layer of each refusal.
ghost use Rattle.std.specs.Prelude.{◌≡◌};
ghost use Rattle.terms.specs.Earliest.{earlier};
ghost use Rattle.terms.specs.Refusals.{number_of, layer_of, letter_of};

/// A part of a job that can run out of soft places.
#[derive(Clone, Copy, PartialEq, Eq, PartialOrd, Ord, Debug)]
pub enum Part {
    Finder,
    CoverMaker,
}

/// The layer of the product that a refusal on a line of a session comes from.
#[derive(Clone, Copy, PartialEq, Eq, Debug)]
pub enum Layer {
    Text,
    Job,
    Finder,
    CoverMaker,
}

impl Layer {
    /// The letter that a fault line prints for the layer.
    pub fn letter(self) -> char
        ensures { result ≡ letter_of self }
    {
        match self {
            Layer::Text => 't',
            Layer::Job => 'j',
            Layer::Finder => 'f',
            Layer::CoverMaker => 'c',
        }
    }
}

/// Why a call was refused. The cases stand in the order in which they are checked, which is not that of the numbers:
/// a call that meets several is refused for the earliest, which is the least.
#[derive(Clone, Copy, PartialEq, Eq, PartialOrd, Ord, Debug)]
pub enum Refusal {
    /// 1, text: a session text that is too long.
    TextTooLong,
    /// 2, text: a line without a known letter in front, or with j anywhere but on the first line, which needs it.
    WrongLetter,
    /// 3, text: too many fields for the line, or too few.
    WrongFieldCount,
    /// 4, text: a field in the wrong form.
    MalformedField,
    /// 5, finder: more variables than the finder takes.
    TooManyVariables,
    /// 6, job: opened on a finder or a cover maker that was in use already.
    NotFresh,
    /// 7, job: a round after the job has ended, at best or void.
    Finished,
    /// 8, finder: more literals in a clause than it may have.
    ClauseTooLong,
    /// 9, finder: the literal 0, or one of a variable above n.
    BadLiteral,
    /// 10, cover maker: a weight of zero.
    ZeroWeight,
    /// 11, of the part that it names: no soft place is free there.
    NoSoftPlace(Part),
    /// 12, cover maker: the weights with the new one come to more than can be held.
    TotalNotHeld,
    /// 13, finder: no clause place is free, or too few literal places are.
    NoClausePlace,
    /// 14: fewer than n bytes in a buffer or an assignment.
    TooShort,
    /// 15: a byte other than 0 and 1 among the n of an assignment.
    BadByte,
    /// 16: a soft number that was not given yet, in a set.
    UnknownSoft,
    /// 17: a core without members.
    EmptyCore,
    /// 18, cover maker: no place for a core, as too many others have to stay.
    NoCorePlace,
    /// 19: no assignment in hand.
    NothingKept,
}

impl Refusal {
    /// The number by which users know the refusal.
    pub fn number(self) -> u8
        ensures { result ≡ number_of self }
    {
        match self {
            Refusal::TextTooLong => 1,
            Refusal::WrongLetter => 2,
            Refusal::WrongFieldCount => 3,
            Refusal::MalformedField => 4,
            Refusal::TooManyVariables => 5,
            Refusal::NotFresh => 6,
            Refusal::Finished => 7,
            Refusal::ClauseTooLong => 8,
            Refusal::BadLiteral => 9,
            Refusal::ZeroWeight => 10,
            Refusal::NoSoftPlace(_) => 11,
            Refusal::TotalNotHeld => 12,
            Refusal::NoClausePlace => 13,
            Refusal::TooShort => 14,
            Refusal::BadByte => 15,
            Refusal::UnknownSoft => 16,
            Refusal::EmptyCore => 17,
            Refusal::NoCorePlace => 18,
            Refusal::NothingKept => 19,
        }
    }

    /// The layer that the refusal comes from, where a line of a session can meet it.
    pub fn layer(self) -> Option<Layer>
        ensures { result ≡ layer_of self }
    {
        match self {
            Refusal::TextTooLong | Refusal::WrongLetter => Some(Layer::Text),
            Refusal::WrongFieldCount | Refusal::MalformedField => Some(Layer::Text),
            Refusal::NotFresh | Refusal::Finished => Some(Layer::Job),
            Refusal::TooManyVariables | Refusal::ClauseTooLong => Some(Layer::Finder),
            Refusal::BadLiteral | Refusal::NoClausePlace => Some(Layer::Finder),
            Refusal::ZeroWeight | Refusal::TotalNotHeld | Refusal::NoCorePlace => Some(
                Layer::CoverMaker,
            ),
            Refusal::NoSoftPlace(Part::Finder) => Some(Layer::Finder),
            Refusal::NoSoftPlace(Part::CoverMaker) => Some(Layer::CoverMaker),
            Refusal::TooShort | Refusal::BadByte | Refusal::UnknownSoft => None,
            Refusal::EmptyCore | Refusal::NothingKept => None,
        }
    }
}

/// The earlier of two refusals.
pub fn earlier(first: Option<Refusal>, other: Option<Refusal>) -> Option<Refusal>
    ensures { result ≡ earlier first other }
{
    match (first, other) {
        (Some(one), Some(two)) => Some(one.min(two)),
        _ => first.or(other),
    }
}

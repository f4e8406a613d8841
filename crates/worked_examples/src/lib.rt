//! The worked examples, proved as one list.
#![tactic(auto)]

ghost use Rattle.std.specs.Prelude.{◌≡◌};
ghost use Rattle.worked_examples.specs.Examples.{examples, AllHold, how_many};

/// How many statements the list of worked examples has. Each of them holds.
pub fn worked_examples() -> usize
    ensures listed { result ≡ how_many examples }
    ensures proved { AllHold examples }
{
    17
}

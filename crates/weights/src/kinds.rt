//! What jobs and cover makers know of a weight kind.
ghost use Rattle.std.specs.Prelude.{◌≡◌, true};
ghost use Rattle.weights.specs.Kinds.{Kind, Laws, Totals, ordering, ComesBack, StandsFor};

/// A kind of weights: its values have no limit of size, and each of its weights means one that it can hold.
pub trait WeightKind: Copy + Ord {
    ghost kind: { Kind Self };

    fn zero() -> Self
        ensures { kind.value result ≡ kind.zero };

    /// The exact total, or none where the kind cannot hold it.
    fn sum(self, other: Self) -> Option<Self>
        ensures { Totals kind (kind.plus (kind.value self) (kind.value other)) result };

    /// The weight as three numbers.
    fn to_numbers(self) -> (u64, u64, u64)
        ensures numbers { result ≡ kind.numbers (kind.value self) }
        ensures held { kind.holds (kind.value self) ≡ true };

    /// The weight that three numbers stand for, or none where they stand for none.
    fn from_numbers(three: (u64, u64, u64)) -> Option<Self>
        ensures back { ComesBack kind three result }
        ensures only { StandsFor kind three result };

    ghost laws: { Laws kind };

    // Weights compare by their values.
    ghost ordered: { (x y : Self) → Self.cmp x y ≡ ordering kind (kind.value x) (kind.value y) };
}

//! Sets of variables.
#![tactic(auto, unfolding(crate::specs::VariableSets::has))]

ghost use Rattle.std.specs.Prelude.{◌≡◌, ◌==◌, ℕ, ◌<◌, false, not, ◌&&◌, ◌||◌};
ghost use Rattle.finder_search.specs.VariableSets.{has};

use terms::SoftSet;
use terms::limits::{MOST_VARIABLES, SOFT_PLACES};

/// The parts of a set of variables. Each is a `SoftSet`, and has as many numbers as one.
const PARTS: usize = MOST_VARIABLES / SOFT_PLACES;

/// A set of variables by their indices.
#[derive(Clone, Copy, PartialEq, Eq, Debug)]
pub(crate) struct VariableSet {
    parts: [SoftSet; PARTS],
}

impl VariableSet {
    pub(crate) fn empty() -> VariableSet
        ensures { (v : ℕ) → has result v ≡ false }
    {
        VariableSet {
            parts: [SoftSet::empty(); PARTS],
        }
    }

    pub(crate) fn has(self, index: usize) -> bool
        requires { index < MOST_VARIABLES }
        ensures { result ≡ has self index }
    {
        self.parts[index / SOFT_PLACES].has(index % SOFT_PLACES)
    }

    pub(crate) fn insert(self, index: usize) -> VariableSet
        requires { index < MOST_VARIABLES }
        ensures { (v : ℕ) → has result v ≡ (has self v || index == v) }
    {
        let mut parts = self.parts;
        parts[index / SOFT_PLACES] = parts[index / SOFT_PLACES].insert(index % SOFT_PLACES);
        VariableSet { parts }
    }

    pub(crate) fn remove(self, index: usize) -> VariableSet
        requires { index < MOST_VARIABLES }
        ensures { (v : ℕ) → has result v ≡ (has self v && not (index == v)) }
    {
        let mut parts = self.parts;
        parts[index / SOFT_PLACES] = parts[index / SOFT_PLACES].remove(index % SOFT_PLACES);
        VariableSet { parts }
    }

    pub(crate) fn union(self, other: VariableSet) -> VariableSet
        ensures { (v : ℕ) → has result v ≡ (has self v || has other v) }
    {
        let mut parts = self.parts;
        for index in 0..PARTS {
            parts[index] = parts[index].union(other.parts[index]);
        }
        VariableSet { parts }
    }
}

//! What a caller lends to be filled from the front.
ghost use Rattle.std.specs.Prelude.{◌≡◌, ◌+◌, ◌<◌, ◌≤◌, ◌++◌, ◌∷◌, [], length, drop};

use std::marker::Model;

/// Places that the caller lends, of which the first ones are in use.
#[derive(Debug, Drop)]
pub struct Lent<'a, T> {
    places: &'a mut [T],
    used: usize,
}

impl<'a, T> Model for Lent<'a, T> {
    ghost use Rattle.std.specs.Prelude.{◌≤◌, ◌-◌, length, take, drop};
    ghost use Rattle.clause_tables.specs.Filled.{Filled};

    ghost Value = { Filled T };

    ghost view = { λ a. record { items = take a.used a.places.now; free = length a.places.now - a.used; behind = drop a.used a.places.now } };

    ghost invariant = { λ a. a.used ≤ length a.places.now };
}

impl<'a, T: Copy> Lent<'a, T> {
    /// All places are free.
    pub(crate) fn new(places: &'a mut [T]) -> Self
        ensures items { result.items ≡ [] }
        ensures free { result.free ≡ length places.old }
        ensures behind { result.behind ≡ places.old }
    {
        Lent { places, used: 0 }
    }

    /// The items that have been put in, in order.
    pub(crate) fn items(&self) -> &[T]
        ensures { result.now ≡ self.now.items }
    {
        &self.places[..self.used]
    }

    /// How many places are free.
    pub(crate) fn free(&self) -> usize
        ensures { result ≡ self.now.free }
    {
        self.places.len() - self.used
    }

    /// Puts the item behind the others.
    pub(crate) fn push(&mut self, item: T)
        requires { 0 < self.old.free }
        ensures items { self.new.items ≡ self.old.items ++ item ∷ [] }
        ensures free { self.new.free + 1 ≡ self.old.free }
        ensures behind { self.new.behind ≡ drop 1 self.old.behind }
    {
        self.places[self.used] = item;
        self.used += 1;
    }

    /// Puts the items behind the others.
    #[tactic(auto, using(std::proofs::lemmas::Slice::overwrites))]
    pub(crate) fn extend(&mut self, more: &[T])
        requires { length more.now ≤ self.old.free }
        ensures items { self.new.items ≡ self.old.items ++ more.now }
        ensures free { self.new.free + length more.now ≡ self.old.free }
        ensures behind { self.new.behind ≡ drop (length more.now) self.old.behind }
    {
        let end = self.used + more.len();
        self.places[self.used..end].copy_from_slice(more);
        self.used = end;
    }
}

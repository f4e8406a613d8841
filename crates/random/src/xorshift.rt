//! Deterministic xorshift numbers.
ghost use Rattle.random.specs.Xorshift.{next_word};
ghost use Rattle.std.specs.Prelude.{◌≡◌, ◌+◌, ◌%◌, ◌≤◌, ◌==◌, max};

use std::marker::Model;

/// A generator of numbers of 64 bits, seen as the number that it drew last.
#[derive(Debug, Drop)]
pub struct Xorshift {
    state: u64,
}

impl Model for Xorshift {
    ghost use Rattle.std.specs.Prelude.{ℕ};

    ghost Value = { ℕ };

    ghost view = { λ numbers. numbers.state };
}

impl Xorshift {
    /// Starts from a seed. From 0 on, each number is 0.
    pub fn new(seed: u64) -> Xorshift
        ensures { result ≡ seed }
    {
        Xorshift { state: seed }
    }

    /// Draws the next number.
    pub fn word(&mut self) -> u64
        ensures next { self.new ≡ next_word self.old }
        ensures word { result ≡ self.new }
    {
        self.state ^= self.state << 13;
        self.state ^= self.state >> 7;
        self.state ^= self.state << 17;
        self.state
    }

    /// Draws a number from 0 to `greatest`.
    pub fn up_to(&mut self, greatest: u8) -> u8
        ensures next { self.new ≡ next_word self.old }
        ensures number { result ≡ self.new % (greatest + 1) }
        ensures range { result ≤ greatest }
    {
        (self.word() % (u64::from(greatest) + 1)) as u8
    }

    /// True about once in `times` calls, and always where `times` is below two.
    pub fn one_in(&mut self, times: u8) -> bool
        ensures next { self.new ≡ next_word self.old }
        ensures rare { result ≡ (self.new % max times 1 == 0) }
    {
        self.word() % u64::from(times.max(1)) == 0
    }
}

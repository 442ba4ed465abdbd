//! The numbers of a place, kept in room of their own.

ghost use Rattle.std.specs.Prelude.{◌≡◌, ◌<◌, ◌++◌, ◌∷◌, [], drop, length, pos};

use std::marker::Model;

/// The numbers of a place of at most three dimensions: the offset of the first cell, and a count and a step for each
/// dimension.
#[derive(Drop)]
pub struct PlaceNumbers {
    numbers: [i64; 7],
    len: usize,
}

impl Model for PlaceNumbers {
    ghost use Rattle.std.specs.Prelude.{◌≤◌, ℤ, List, take};

    ghost Value = { List ℤ };

    ghost view = { λ p. take p.len p.numbers };

    ghost invariant = { λ p. p.len ≤ 7 };
}

impl PlaceNumbers {
    /// A place of one cell, the first.
    pub fn new() -> PlaceNumbers
        ensures { result ≡ pos 0 ∷ [] }
    {
        PlaceNumbers {
            numbers: [0; 7],
            len: 1,
        }
    }

    /// The numbers, the lowest on the stack first.
    pub fn as_slice(&self) -> &[i64]
        ensures { result.now ≡ self.now }
    {
        &self.numbers[..self.len]
    }

    /// Puts a number behind.
    pub fn push(&mut self, number: &i64)
        requires { length self.old < 7 }
        ensures { self.new ≡ self.old ++ number.now ∷ [] }
    {
        self.numbers[self.len] = *number;
        self.len += 1;
    }

    /// Gives it another first number.
    pub(crate) fn put_first(&mut self, number: &i64)
        requires { 0 < length self.old }
        ensures { self.new ≡ number.now ∷ drop 1 self.old }
    {
        self.numbers[0] = *number;
    }
}

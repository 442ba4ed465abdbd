//! A few numbers, kept in place.

ghost use Rattle.std.specs.Prelude.{◌≡◌, ◌<◌, ◌≤◌, ◌++◌, ◌∷◌, [], length};

use std::marker::Model;

/// At most six numbers.
#[derive(Drop)]
pub struct Few {
    numbers: [i64; 6],
    len: usize,
}

impl Model for Few {
    ghost use Rattle.std.specs.Prelude.{◌≤◌, ℤ, List, take};

    ghost Value = { List ℤ };

    ghost view = { λ f. take f.len f.numbers };

    ghost invariant = { λ f. f.len ≤ 6 };
}

impl Few {
    /// No numbers.
    pub(crate) fn new() -> Few
        ensures { result ≡ [] }
    {
        Few {
            numbers: [0; 6],
            len: 0,
        }
    }

    /// These numbers.
    pub(crate) fn from_slice(numbers: &[i64]) -> Few
        requires { length numbers.now ≤ 6 }
        ensures { result ≡ numbers.now }
    {
        let mut few = Few::new();
        for i in 0..numbers.len() {
            few.push(&numbers[i]);
        }
        few
    }

    /// The numbers.
    pub(crate) fn as_slice(&self) -> &[i64]
        ensures { result.now ≡ self.now }
    {
        &self.numbers[..self.len]
    }

    /// Puts a number behind.
    pub(crate) fn push(&mut self, number: &i64)
        requires { length self.old < 6 }
        ensures { self.new ≡ self.old ++ number.now ∷ [] }
    {
        self.numbers[self.len] = *number;
        self.len += 1;
    }
}

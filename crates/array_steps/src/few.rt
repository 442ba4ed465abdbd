//! A few numbers of the stack, kept in room of their own.

ghost use Rattle.std.specs.Prelude.{◌≡◌, ◌≤◌, length};

use std::marker::Model;

/// At most seven numbers: those of a place or of bounds.
#[derive(Drop)]
pub(crate) struct FewNumbers {
    numbers: [i64; 7],
    len: usize,
}

impl Model for FewNumbers {
    ghost use Rattle.std.specs.Prelude.{◌≤◌, ℤ, List, take};

    ghost Value = { List ℤ };

    ghost view = { λ f. take f.len f.numbers };

    ghost invariant = { λ f. f.len ≤ 7 };
}

impl FewNumbers {
    /// A copy of these numbers.
    pub(crate) fn copy_of(numbers: &[i64]) -> FewNumbers
        requires { length numbers.now ≤ 7 }
        ensures { result ≡ numbers.now }
    {
        let len = numbers.len();
        let mut kept = [0; 7];
        kept[..len].copy_from_slice(numbers);
        FewNumbers { numbers: kept, len }
    }

    /// The numbers.
    pub(crate) fn as_slice(&self) -> &[i64]
        ensures is { result.now ≡ self.now }
        ensures few { length result.now ≤ 7 }
    {
        &self.numbers[..self.len]
    }
}

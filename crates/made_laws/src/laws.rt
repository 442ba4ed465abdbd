//! The law of the length of made sources. It is the contract of a function that does nothing.

ghost use Rattle.std.specs.Prelude.{◌≤◌, ℕ, length};
ghost use Rattle.work_maker.specs.MadeSource.{made_source};

/// A made source is no longer than a file may be: it has at most 1,048,576 bytes, whatever the seed is, for each size
/// from 1 to 4,096.
pub fn law_made_is_short()
    ensures { (seed size : ℕ) → 1 ≤ size → size ≤ 4096 → length (made_source seed size) ≤ 1048576 }
{}

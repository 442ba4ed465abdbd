//! Distances, and numbers as a digit and the rest behind it.

ghost use Rattle.std.specs.Prelude.{◌≡◌, ◌+◌, ◌*◌, ◌^◌, ◌<◌, ◌≤◌, pos, ◌+ℤ◌, ◌-ℤ◌, ◌≤ℤ◌, FitsSigned};
ghost use Rattle.std.specs.Int.{w32};
ghost use Rattle.std.specs.Int.RustNames.{unsigned_abs};
ghost use Rattle.coarray_types.specs.Distances.{distance};

/// How far apart two numbers are.
pub(crate) fn apart(from: &i64, to: &i64) -> u64
    ensures { result ≡ distance from.now to.now }
{
    to.abs_diff(*from)
}

/// A digit below an extent, and the rest behind it. 64 bits suffice: the extent is at most 2^32 and the rest fits 32
/// bits, so the number is below 2^32 times 2^32.
#[tactic(auto, using(crate::proofs::DigitLemmas::joined_fits))]
pub(crate) fn joined(digit: u64, extent: u64, rest: u32) -> u64
    requires digit { digit < extent }
    requires extent { extent ≤ 2 ^ 32 }
    ensures { result ≡ digit + extent * rest }
{
    digit + extent * u64::from(rest)
}

/// A coextent, which is at most 2^32, since both cobounds fit 32 bits.
pub(crate) fn coextent(lower: &i64, extent: &i64) -> u64
    requires lower { FitsSigned w32 lower.now }
    requires extent { pos 1 ≤ℤ extent.now }
    requires upper { FitsSigned w32 ((lower.now +ℤ extent.now) -ℤ pos 1) }
    ensures value { result ≡ unsigned_abs extent.now }
    ensures some { 1 ≤ result }
    ensures fits { result ≤ 2 ^ 32 }
{
    extent.unsigned_abs()
}

/// A cosubscript so far above its lower cobound. 64 bits suffice, since both fit 33 bits.
pub(crate) fn above(lower: &i64, digit: u32) -> i64
    requires { FitsSigned w32 lower.now }
    ensures { result ≡ lower.now +ℤ pos digit }
{
    lower + i64::from(digit)
}

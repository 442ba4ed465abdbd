//! Bounds of arrays, and the extents between them (ISO/IEC 1539-1:2018, 5.4.6).

ghost use Rattle.std.specs.Prelude.{◌≡◌, ◌<◌, ◌≤◌, ◌+◌, ◌*◌, ◌-◌, ◌^◌, ◌∷◌, [], ℕ, List, true, false, map, length, IfSome, IfNone};
ghost use Rattle.caf_base.specs.Arithmetic.{natural};
ghost use Rattle.coarray_types.specs.Places.{extent_of};
ghost use Rattle.image_acts.specs.Frames.{pairs_in, pairs_numbers};
ghost use Rattle.image_acts.specs.Places.{are_small};
ghost use Rattle.image_acts.specs.Operate.Bounds.{same_extents};
ghost use Rattle.array_values.specs.Extents.{listed};

use array_places::place::{first_pair, natural};
use array_values::extents::Extents;

/// The numbers that are a lower and an upper bound: all, but for the last one of an odd number of them.
pub(crate) fn whole_pairs(numbers: &[i64]) -> &[i64]
    ensures { result.now ≡ pairs_numbers (pairs_in numbers.now) }
{
    let n = numbers.len();
    &numbers[..n - n % 2]
}

/// How many values a subscript has between its bounds.
fn extent(lower: &i64, upper: &i64) -> u128
    ensures { result ≡ extent_of (lower.now, upper.now) }
{
    if upper < lower {
        0
    } else {
        u128::from(upper.abs_diff(*lower)) + 1
    }
}

/// The bounds behind those of a dimension of this extent, where the first one has it.
fn behind<'a>(count: &i64, bounds: &'a [i64]) -> Option<&'a [i64]>
    ensures same { IfSome result (λ rest. (ns : List ℕ) → same_extents (natural count.now ∷ ns) (map extent_of (pairs_in bounds.now)) ≡ same_extents ns (map extent_of (pairs_in rest.now))) }
    ensures differs { IfNone result ((ns : List ℕ) → same_extents (natural count.now ∷ ns) (map extent_of (pairs_in bounds.now)) ≡ false) }
{
    let (lower, upper, rest) = first_pair(bounds)?;
    if u128::from(natural(count)) == extent(lower, upper) {
        Some(rest)
    } else {
        None
    }
}

/// Whether no dimension is left.
fn is_end(bounds: &[i64]) -> bool
    ensures { result ≡ same_extents [] (map extent_of (pairs_in bounds.now)) }
{
    first_pair(bounds).is_none()
}

/// Whether bounds are those of a dimension of this extent and no further one.
fn has_one(k: &i64, bounds: &[i64]) -> bool
    ensures { result ≡ same_extents (natural k.now ∷ []) (map extent_of (pairs_in bounds.now)) }
{
    match behind(k, bounds) {
        None => false,
        Some(rest) => is_end(rest),
    }
}

/// The same of two dimensions.
fn has_two(k: &i64, m: &i64, bounds: &[i64]) -> bool
    ensures { result ≡ same_extents (natural k.now ∷ natural m.now ∷ []) (map extent_of (pairs_in bounds.now)) }
{
    match behind(k, bounds) {
        None => false,
        Some(rest) => has_one(m, rest),
    }
}

/// The same of three.
fn has_three(k: &i64, m: &i64, n: &i64, bounds: &[i64]) -> bool
    ensures { result ≡ same_extents (natural k.now ∷ natural m.now ∷ natural n.now ∷ []) (map extent_of (pairs_in bounds.now)) }
{
    match behind(k, bounds) {
        None => false,
        Some(rest) => has_two(m, n, rest),
    }
}

/// Whether an array with these bounds has these extents.
pub(crate) fn agree(extents: Extents, bounds: &[i64]) -> bool
    ensures { result ≡ same_extents (listed extents) (map extent_of (pairs_in bounds.now)) }
{
    match extents {
        Extents::Scalar => is_end(bounds),
        Extents::One(k) => has_one(&k, bounds),
        Extents::Two(k, m) => has_two(&k, &m, bounds),
        Extents::Three(k, m, n) => has_three(&k, &m, &n, bounds),
    }
}

/// An extent as a number of the stack.
fn count(lower: &i64, upper: &i64) -> i64
    requires { extent_of (lower.now, upper.now) < 2 ^ 63 }
    ensures { natural result ≡ extent_of (lower.now, upper.now) }
{
    extent(lower, upper) as i64
}

/// The extents of an array with these bounds, each of 63 bits.
pub(crate) fn extents_between(bounds: &[i64]) -> Extents
    requires few { length bounds.now ≤ 7 }
    requires small { are_small (pairs_in bounds.now) ≡ true }
    ensures { listed result ≡ map extent_of (pairs_in bounds.now) }
{
    let Some((a, b, rest)) = first_pair(bounds) else {
        return Extents::Scalar;
    };
    let Some((c, d, rest)) = first_pair(rest) else {
        return Extents::One(count(a, b));
    };
    let Some((e, f, _)) = first_pair(rest) else {
        return Extents::Two(count(a, b), count(c, d));
    };
    Extents::Three(count(a, b), count(c, d), count(e, f))
}

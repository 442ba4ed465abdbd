//! The subscripts of one dimension (ISO/IEC 1539-1:2018, 9.5.3.3).

ghost use Rattle.std.specs.Prelude.{◌≡◌, ◌<◌, ◌≤◌, ◌-◌, ◌*◌, ◌^◌, ◌&&◌, pos, ◌+ℤ◌, ◌-ℤ◌, ◌*ℤ◌, true, false, Some, None, cond, drop, slice_get, unwrap_or, unsigned_abs, int_div, IfOk};
ghost use Rattle.std.specs.Ordering.{int_eq};
ghost use Rattle.caf_base.specs.Arithmetic.{is_within, iterations, natural};
ghost use Rattle.coarray_types.specs.Places.{extent_of};
ghost use Rattle.image_acts.specs.Places.{single, apart_by, triplet as triplet_of, dimension as dimension_of, numbers_in};
ghost use Rattle.array_places.specs.Sections.{Lies, found_dimension, seen, subscript_in};

use caf_events::fault::{BOUNDS, ZERO_STEP};

/// The subscripts of a dimension: the first, how many, how far apart; and whether it is a dimension of the section.
#[derive(Clone, Copy)]
pub(crate) struct Subscripts {
    pub first: i64,
    pub count: u64,
    pub stride: i64,
    pub is_kept: bool,
}

/// How far the last subscript is from the first one, and one stride more.
fn distance(first: &i64, last: &i64, stride: &i64) -> i128
    ensures value { result ≡ (last.now -ℤ first.now) +ℤ stride.now }
    ensures small { unsigned_abs result ≤ 2 ^ 65 }
{
    i128::from(*last) - i128::from(*first) + i128::from(*stride)
}

/// The quotient, truncated toward 0, or 0 for one below 0.
fn times(v: &i128, w: &i64) -> u128
    requires divisor { int_eq w.now (pos 0) ≡ false }
    requires small { unsigned_abs v.now ≤ 2 ^ 65 }
    ensures { result ≡ natural (int_div v.now w.now) }
{
    let quotient = *v / i128::from(*w);
    if quotient < 0 { 0 } else { quotient as u128 }
}

/// How many subscripts a triplet has (9.5.3.3.2).
fn count_of(first: &i64, last: &i64, stride: &i64) -> u128
    requires { int_eq stride.now (pos 0) ≡ false }
    ensures value { result ≡ iterations first.now last.now stride.now }
    ensures near { result * unsigned_abs stride.now ≤ 2 ^ 65 }
{
    times(&distance(first, last, stride), stride)
}

/// So many strides.
fn strides(number: u128, stride: &i64) -> i128
    requires few { number ≤ 2 ^ 65 }
    requires near { number * unsigned_abs stride.now ≤ 2 ^ 65 }
    ensures { result ≡ pos number *ℤ stride.now }
{
    number as i128 * i128::from(*stride)
}

/// The last of so many subscripts.
#[tactic(auto, using(crate::proofs::Subscripts::last_fits))]
fn last_of(first: &i64, count: u128, stride: &i64) -> i128
    requires few { count ≤ 2 ^ 65 }
    requires near { count * unsigned_abs stride.now ≤ 2 ^ 65 }
    ensures { result ≡ first.now +ℤ (pos (count - 1) *ℤ stride.now) }
{
    i128::from(*first) + strides(count.saturating_sub(1), stride)
}

/// Whether a number is within bounds.
fn is_between(lower: &i64, upper: &i64, number: &i128) -> bool
    ensures { result ≡ is_within lower.now upper.now number.now }
{
    i128::from(*lower) <= *number && *number <= i128::from(*upper)
}

/// One subscript of a dimension with these bounds, or the run fault Bounds.
fn one(lower: &i64, upper: &i64, subscript: &i64) -> Result<Subscripts, u32>
    ensures found { found_dimension result ≡ dimension_of (lower.now, upper.now) (single subscript.now) }
    ensures lies { IfOk result (λ d. Lies lower.now upper.now d) }
{
    if lower <= subscript && subscript <= upper {
        Ok(Subscripts {
            first: *subscript,
            count: 1,
            stride: 1,
            is_kept: false,
        })
    } else {
        Err(BOUNDS)
    }
}

/// The subscripts of a triplet of a dimension with these bounds; or the run fault ZeroStep or Bounds.
fn triplet(
    lower: &i64,
    upper: &i64,
    first: &i64,
    last: &i64,
    stride: &i64,
) -> Result<Subscripts, u32>
    requires { extent_of (lower.now, upper.now) < 2 ^ 63 }
    ensures found { found_dimension result ≡ dimension_of (lower.now, upper.now) (triplet_of (Some first.now) (Some last.now) (Some stride.now)) }
    ensures lies { IfOk result (λ d. Lies lower.now upper.now d) }
{
    if *stride == 0 {
        return Err(ZERO_STEP);
    }
    let count = count_of(first, last, stride);
    if count == 0 {
        return Ok(Subscripts {
            first: *first,
            count: 0,
            stride: 1,
            is_kept: true,
        });
    }
    if !are_between(lower, upper, first, count, stride) {
        return Err(BOUNDS);
    }
    Ok(spread(lower, upper, first, count, stride))
}

/// So many subscripts, of which the first and the last are within bounds: of fewer than two the stride is 1.
fn spread(lower: &i64, upper: &i64, first: &i64, count: u128, stride: &i64) -> Subscripts
    requires some { 0 < count }
    requires extent { extent_of (lower.now, upper.now) < 2 ^ 63 }
    requires stride { int_eq stride.now (pos 0) ≡ false }
    requires inside { (is_within lower.now upper.now first.now && is_within lower.now upper.now (first.now +ℤ (pos (count - 1) *ℤ stride.now))) ≡ true }
    ensures seen { seen result ≡ record { first = first.now; count = count; stride = apart_by count stride.now; is_kept = true } }
    ensures lies { Lies lower.now upper.now result }
{
    if count == 1 {
        return Subscripts {
            first: *first,
            count: 1,
            stride: 1,
            is_kept: true,
        };
    }
    Subscripts {
        first: *first,
        count: count as u64,
        stride: *stride,
        is_kept: true,
    }
}

/// Whether the first and the last of so many subscripts are within bounds.
fn are_between(lower: &i64, upper: &i64, first: &i64, count: u128, stride: &i64) -> bool
    requires few { count ≤ 2 ^ 65 }
    requires near { count * unsigned_abs stride.now ≤ 2 ^ 65 }
    ensures { result ≡ (is_within lower.now upper.now first.now && is_within lower.now upper.now (first.now +ℤ (pos (count - 1) *ℤ stride.now))) }
{
    is_between(lower, upper, &i128::from(*first))
        && is_between(lower, upper, &last_of(first, count, stride))
}

/// The next number where the part is there, else this one; and the numbers behind it.
fn part<'a>(there: bool, numbers: &'a [i64], missing: &'a i64) -> (&'a i64, &'a [i64])
    ensures part { result.0.now ≡ unwrap_or (cond there (slice_get numbers.now 0) None) missing.now }
    ensures past { result.1.now ≡ cond there (drop 1 numbers.now) numbers.now }
{
    if !there {
        return (missing, numbers);
    }
    match numbers.split_first() {
        Some((first, rest)) => (first, rest),
        None => (missing, numbers),
    }
}

/// The subscripts of a dimension with these bounds, by a digit of a form and the numbers that stand for it; or the run
/// fault that is found.
pub(crate) fn dimension(
    lower: &i64,
    upper: &i64,
    digit: u32,
    numbers: &[i64],
) -> Result<Subscripts, u32>
    requires digit { 0 < digit }
    requires extent { extent_of (lower.now, upper.now) < 2 ^ 63 }
    ensures found { found_dimension result ≡ dimension_of (lower.now, upper.now) (subscript_in digit numbers.now) }
    ensures lies { IfOk result (λ d. Lies lower.now upper.now d) }
{
    if digit == 1 {
        return one(lower, upper, part(true, numbers, &0).0);
    }
    let parts = digit - 2;
    let (first, numbers) = part(parts % 2 == 1, numbers, lower);
    let (last, numbers) = part(parts / 2 % 2 == 1, numbers, upper);
    let (stride, _) = part(4 <= parts, numbers, &1);
    triplet(lower, upper, first, last, stride)
}

/// The numbers behind those of a digit.
pub(crate) fn behind(digit: u32, numbers: &[i64]) -> &[i64]
    requires { 0 < digit }
    ensures { result.now ≡ drop (numbers_in digit) numbers.now }
{
    if digit == 1 {
        return part(true, numbers, &0).1;
    }
    let parts = digit - 2;
    let numbers = part(parts % 2 == 1, numbers, &0).1;
    let numbers = part(parts / 2 % 2 == 1, numbers, &0).1;
    part(4 <= parts, numbers, &0).1
}

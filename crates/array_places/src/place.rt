//! Places as numbers: the offset of the first cell, and a count and a step for each dimension.

ghost use Rattle.std.specs.Prelude.{◌≡◌, ◌<◌, ◌≤◌, ◌+◌, ◌-◌, ◌*◌, ◌%◌, ◌^◌, ◌∷◌, ◌+ℤ◌, ◌*ℤ◌, pos, min, length, IfSome, IfNone, unsigned_abs, Some, slice_get};
ghost use Rattle.caf_base.specs.Arithmetic.{natural};
ghost use Rattle.caf_base.specs.Spans.{offsets_from};
ghost use Rattle.image_acts.specs.Places.{place_in, cells_of, offsets, dims_in};
ghost use Rattle.array_places.specs.Offsets.{counts_of};

/// A number, or 0 for one below 0.
pub fn natural(v: &i64) -> u64
    ensures { result ≡ natural v.now }
{
    if *v < 0 { 0 } else { *v as u64 }
}

/// The first two numbers and those behind them, where there are two.
pub fn first_pair(numbers: &[i64]) -> Option<(&i64, &i64, &[i64])>
    ensures some { IfSome result (λ r. numbers.now ≡ r.0.now ∷ r.1.now ∷ r.2.now) }
    ensures none { IfNone result (length numbers.now < 2) }
{
    let (first, behind) = numbers.split_first()?;
    let (second, rest) = behind.split_first()?;
    Some((first, second, rest))
}

/// The offset of the first cell, and the numbers of the dimensions.
fn split(place: &[i64]) -> (i64, &[i64])
    ensures start { result.0 ≡ (place_in place.now).start }
    ensures dims { dims_in result.1.now ≡ (place_in place.now).dims }
{
    match place.split_first() {
        Some((start, dims)) => (*start, dims),
        None => (0, place),
    }
}

/// How many cells a place has, or the largest number of 64 bits where there are more.
pub fn cells_in(place: &[i64]) -> u64
    ensures { result ≡ min (cells_of (place_in place.now)) (2 ^ 64 - 1) }
{
    let mut cells = 1u64;
    let mut left = split(place).1;
    while let Some((count, _step, rest)) = first_pair(left) {
        cells = cells.saturating_mul(natural(count));
        left = rest;
    }
    cells
}

/// The offset of the cell with this number from 0, in array element order (9.5.3.2).
pub fn offset_at(place: &[i64], k: u32) -> i128
    requires { k < cells_of (place_in place.now) }
    ensures { slice_get (offsets (place_in place.now)) k ≡ Some result }
{
    let (start, dims) = split(place);
    offset_from(start, dims, k)
}

/// How far the cells of this number lie from the first one in one dimension.
fn part(number: u64, count: u64, step: i64) -> i128
    requires count { 0 < count }
    requires number { number < 2 ^ 32 }
    ensures { result ≡ pos (number % count) *ℤ step }
{
    i128::from(number % count) * i128::from(step)
}

/// The offset, moved on in one dimension.
#[tactic(auto, using(crate::proofs::Counting::part_fits))]
fn moved(at: &i128, number: u64, count: u64, step: i64) -> i128
    requires count { 0 < count }
    requires number { number < 2 ^ 32 }
    requires near { unsigned_abs at.now ≤ 2 ^ 96 }
    ensures { result ≡ at.now +ℤ (pos (number % count) *ℤ step) }
{
    *at + part(number, count, step)
}

/// The same, of the dimensions. 128 bits suffice: the numbers in front of the steps are together no more than k.
fn offset_from(start: i64, dims: &[i64], k: u32) -> i128
    requires { k < counts_of dims.now }
    ensures { slice_get (offsets_from start (dims_in dims.now)) k ≡ Some result }
{
    let mut at = i128::from(start);
    let mut number = u64::from(k);
    let mut left = dims;
    while let Some((count, step, rest)) = first_pair(left) {
        let count = natural(count);
        at = moved(&at, number, count, *step);
        number /= count;
        left = rest;
    }
    at
}

//! The bounds of arrays, and the offsets of elements.

ghost use Rattle.std.specs.Prelude.{◌≡◌, ◌≤◌, ◌<◌, ◌≤ℤ◌, length, IsNone, IfSome, IsTrue, ◌↔◌, List, ℤ, ℕ};
ghost use Rattle.coarray_types.specs.Places.{size_of, AllWithin, subscript_order};

use crate::digits::{apart, joined};
use caf_base::short::Short;

/// The bounds of an array: of each dimension the lower and the upper one. Their extents are its shape (ISO/IEC
/// 1539-1:2018, 5.4.6). A dimension whose upper bound is below the lower one has no element. A scalar has no dimension.
/// Up to 3 dimensions lie in place; the 3 is this project's, the standard has up to 15.
#[derive(Drop, Debug)]
pub struct Shape {
    pub dims: Short<(i64, i64), 3>,
}

/// The offset of an element from the first one, in array element order, of an array of at most 65,536 cells; None
/// exactly where a subscript is out of bounds (ISO/IEC 1539-1:2018, 9.5.3.2).
pub fn offset_of(shape: &Shape, subs: &[i64]) -> Option<u32>
    requires cells { size_of shape.now.dims ≤ 65536 }
    requires rank { length subs.now ≡ length shape.now.dims }
    ensures out { IsNone result → AllWithin shape.now.dims subs.now → ⊥ }
    ensures offset { IfSome result (λ n. AllWithin shape.now.dims subs.now × (n ≡ subscript_order shape.now.dims subs.now)) }
    ensures below { IfSome result (λ n. n < size_of shape.now.dims) }
{
    offset_in(shape.dims.as_slice(), subs)
}

// The same, of the dimensions. 64 bits suffice: within the bounds no sum or product here passes the 65,536 cells.
fn offset_in(dims: &[(i64, i64)], subs: &[i64]) -> Option<u32>
    requires cells { size_of dims.now ≤ 65536 }
    requires rank { length subs.now ≡ length dims.now }
    ensures out { IsNone result → AllWithin dims.now subs.now → ⊥ }
    ensures offset { IfSome result (λ n. AllWithin dims.now subs.now × (n ≡ subscript_order dims.now subs.now)) }
    ensures below { IfSome result (λ n. n < size_of dims.now) }
{
    let [(lower, upper), dims @ ..] = dims else {
        return Some(0);
    };
    let [sub, subs @ ..] = subs else {
        return None;
    };
    if !is_within(lower, upper, sub) {
        return None;
    }
    let rest = offset_in(dims, subs)?;
    let extent = apart(lower, upper) + 1;
    Some(joined(apart(lower, sub), extent, rest) as u32)
}

// Whether a subscript lies within its bounds.
fn is_within(lower: &i64, upper: &i64, sub: &i64) -> bool
    ensures { IsTrue result ↔ ((lower.now ≤ℤ sub.now) × (sub.now ≤ℤ upper.now)) }
{
    lower <= sub && sub <= upper
}

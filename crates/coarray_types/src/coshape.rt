//! The cobounds of coarrays, and the images that cosubscripts name.

ghost use Rattle.std.specs.Prelude.{◌≡◌, ◌≤◌, ◌<◌, ◌+◌, ◌-◌, ◌∷◌, ℕ, length, take, drop, replicate, IfSome, IsNone, pos};
ghost use Rattle.coarray_types.specs.Coplaces.{HasCobounds, AllWithinCobounds, image_order, Names};

use crate::digits::{above, apart, coextent, joined};
use caf_base::short::Short;

/// The cobounds of a coarray: of each codimension the lower cobound, and of each but the last the coextent. The
/// coextents are its coshape, as extents are a shape (ISO/IEC 1539-1:2018, 5.4.6, and COSHAPE in 16.9); the last one
/// has no limit (8.5.6.3). The calls here want one codimension or more, cobounds of kind 4 and no coextent below 1
/// (`HasCobounds`). Up to 3 codimensions lie in place; the 3 is this project's, the standard has up to 15.
#[derive(Drop, Debug)]
pub struct CoShape {
    pub lower: Short<i64, 3>,
    pub extent: Short<i64, 2>,
}

/// The index of the image that cosubscripts name among n images, or 0 exactly where they name none of them
/// (ISO/IEC 1539-1:2018, 9.6, and IMAGE_INDEX in 16.9).
pub fn image_of(co: &CoShape, subs: &[i64], n: u32) -> u32
    requires cobounds { HasCobounds co.now.lower co.now.extent }
    requires corank { length subs.now ≡ length co.now.lower }
    ensures image { 0 < result → Names co.now.lower co.now.extent subs.now result × (result ≤ n) }
    ensures none { result ≡ 0 → (i : ℕ) → Names co.now.lower co.now.extent subs.now i → n < i }
{
    match place_below(co.lower.as_slice(), co.extent.as_slice(), subs, n) {
        Some(place) => place + 1,
        None => 0,
    }
}

/// The cosubscripts that name an image, and 0 past the corank (ISO/IEC 1539-1:2018, THIS_IMAGE in 16.9).
pub fn cosubscripts_of(co: &CoShape, index: u32) -> [i64; 3]
    requires cobounds { HasCobounds co.now.lower co.now.extent }
    requires corank { length co.now.lower ≤ 3 }
    requires index { 1 ≤ index }
    ensures named { Names co.now.lower co.now.extent (take (length co.now.lower) result) index }
    ensures past { drop (length co.now.lower) result ≡ replicate (3 - length co.now.lower) (pos 0) }
{
    let mut subs = [0; 3];
    put_cosubscripts(
        co.lower.as_slice(),
        co.extent.as_slice(),
        index - 1,
        &mut subs,
    );
    subs
}

// The place from 0 that cosubscripts name, where it is below n.
fn place_below(lowers: &[i64], extents: &[i64], subs: &[i64], n: u32) -> Option<u32>
    requires cobounds { HasCobounds lowers.now extents.now }
    requires corank { length subs.now ≡ length lowers.now }
    ensures some { IfSome result (λ p. AllWithinCobounds lowers.now extents.now subs.now × (p ≡ image_order lowers.now extents.now subs.now) × (p < n)) }
    ensures none { IsNone result → AllWithinCobounds lowers.now extents.now subs.now → n ≤ image_order lowers.now extents.now subs.now }
{
    let ([lower, lowers @ ..], [sub, subs @ ..]) = (lowers, subs) else {
        return None;
    };
    if sub < lower {
        return None;
    }
    let digit = apart(lower, sub);
    let [extent, extents @ ..] = extents else {
        return below(digit, n);
    };
    let extent = coextent(lower, extent);
    if digit >= extent {
        return None;
    }
    let rest = place_below(lowers, extents, subs, n)?;
    below(joined(digit, extent, rest), n)
}

// A place, where it is below n.
fn below(place: u64, n: u32) -> Option<u32>
    ensures some { IfSome result (λ p. (p ≡ place) × (p < n)) }
    ensures none { IsNone result → n ≤ place }
{
    if place < u64::from(n) {
        Some(place as u32)
    } else {
        None
    }
}

// Puts the cosubscripts of a place at the front.
fn put_cosubscripts(lowers: &[i64], extents: &[i64], place: u32, subs: &mut [i64])
    requires cobounds { HasCobounds lowers.now extents.now }
    requires corank { length lowers.now ≤ length subs.old }
    ensures within { AllWithinCobounds lowers.now extents.now (take (length lowers.now) subs.new) }
    ensures place { image_order lowers.now extents.now (take (length lowers.now) subs.new) ≡ place }
    ensures past { drop (length lowers.now) subs.new ≡ drop (length lowers.now) subs.old }
{
    let [lower, lowers @ ..] = lowers else {
        return;
    };
    let [extent, extents @ ..] = extents else {
        subs[0] = above(lower, place);
        return;
    };
    let extent = coextent(lower, extent);
    let place = u64::from(place);
    subs[0] = above(lower, (place % extent) as u32);
    put_cosubscripts(lowers, extents, (place / extent) as u32, &mut subs[1..]);
}

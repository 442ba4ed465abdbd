//! What is read of an image's local arrays, and of the places on its stack.

ghost use Rattle.std.specs.Prelude.{◌≡◌, ◌≤◌, ◌<◌, ◌+◌, ◌^◌, ◌∷◌, [], length, take, reverse, is_some, slice_get, None, Some, IfOk, IfErr, OnOk, IfSome, IfNone};
ghost use Rattle.walk_theory.specs.Terms.{found, at_fault};
ghost use Rattle.array_places.specs.Sections.{numbers_of};
ghost use Rattle.image_acts.specs.Frames.{array_in, pairs_in};
ghost use Rattle.image_acts.specs.Places.{digits, place_in, place_size, subscripts_in};
ghost use Rattle.image_code.specs.Table.{scope_of};
ghost use Rattle.local_arrays.specs.Arrays.{bounds_in, elements_of, loaded, place_found, HasCells};

use crate::few::FewNumbers;
use array_places::list::PlaceNumbers;
use image_code::step::Scope;
use image_state::state::ImageState;

/// An element of an array, or the run fault NotAllocated or Shape.
#[inline(always)]
#[tactic(auto, using(local_arrays::proofs::CoreLaws::array_agrees))]
pub(crate) fn element(image: &ImageState, scope: Scope, x: u32, offset: &i64) -> Result<i64, u32>
    ensures ok { IfOk result (λ v. loaded (array_in (scope_of scope) x image.now.core) (place_in (offset.now ∷ [])) ≡ found (v ∷ [])) }
    ensures err { IfErr result (λ k. loaded (array_in (scope_of scope) x image.now.core) (place_in (offset.now ∷ [])) ≡ at_fault k) }
{
    image.locals().element(scope, x, offset)
}

/// Tests whether an array is there with each cell of a place; else the run fault NotAllocated or Shape.
#[tactic(auto, using(local_arrays::proofs::CoreLaws::array_agrees))]
pub(crate) fn check(image: &ImageState, scope: Scope, x: u32, place: &[i64]) -> Result<(), u32>
    ensures ok { OnOk result (HasCells (array_in (scope_of scope) x image.now.core) (place_in place.now)) }
    ensures err { IfErr result (λ k. loaded (array_in (scope_of scope) x image.now.core) (place_in place.now) ≡ at_fault k) }
{
    image.locals().check(scope, x, place)
}

/// The elements of an array, where it is there.
#[tactic(auto, using(local_arrays::proofs::CoreLaws::array_agrees))]
pub(crate) fn elements(image: &ImageState, scope: Scope, x: u32) -> Option<&[i64]>
    ensures some { IfSome result (λ xs. elements_of (array_in (scope_of scope) x image.now.core) ≡ Some xs.now) }
    ensures few { IfSome result (λ xs. length xs.now < 2 ^ 32) }
    ensures none { IfNone result (array_in (scope_of scope) x image.now.core ≡ None) }
{
    image.locals().elements(scope, x)
}

/// Its bounds, where it is there: a lower and an upper one for each dimension.
#[tactic(auto, using(local_arrays::proofs::CoreLaws::array_agrees))]
pub(crate) fn bounds(image: &ImageState, scope: Scope, x: u32) -> Option<&[i64]>
    ensures some { IfSome result (λ ns. bounds_in (array_in (scope_of scope) x image.now.core) ≡ Some (pairs_in ns.now)) }
    ensures few { IfSome result (λ ns. length ns.now ≤ 6) }
    ensures none { IfNone result (array_in (scope_of scope) x image.now.core ≡ None) }
{
    image.locals().bounds(scope, x)
}

/// Whether it is there.
#[tactic(auto, using(local_arrays::proofs::CoreLaws::array_agrees))]
pub(crate) fn is_there(image: &ImageState, scope: Scope, x: u32) -> bool
    ensures { result ≡ is_some (array_in (scope_of scope) x image.now.core) }
{
    image.locals().is_there(scope, x)
}

/// The numbers of the place of an element or a section of an array, or the run fault that is found first.
#[inline(always)]
#[tactic(auto, using(local_arrays::proofs::CoreLaws::array_agrees))]
pub(crate) fn section(
    image: &ImageState,
    scope: Scope,
    x: u32,
    form: u32,
    numbers: &[i64],
) -> Result<PlaceNumbers, u32>
    ensures found { IfOk result (λ p. numbers_of (place_found (array_in (scope_of scope) x image.now.core) (subscripts_in (digits form) numbers.now)) ≡ found p) }
    ensures faults { IfErr result (λ k. numbers_of (place_found (array_in (scope_of scope) x image.now.core) (subscripts_in (digits form) numbers.now)) ≡ at_fault k) }
{
    image.locals().section(scope, x, form, numbers)
}

/// A copy of the place of this rank on top.
pub(crate) fn place_on_top(image: &ImageState, rank: u32) -> Option<FewNumbers>
    requires { rank ≤ 3 }
    ensures there { IfSome result (λ p. place_size rank ≤ length image.now.core.values) }
    ensures is { IfSome result (λ p. p ≡ reverse (take (place_size rank) image.now.core.values)) }
    ensures none { IfNone result (length image.now.core.values < place_size rank) }
{
    let place = image.numbers_at(0, 1 + 2 * rank as usize)?;
    Some(FewNumbers::copy_of(place))
}

/// A copy of it, and the number beneath it.
pub(crate) fn place_over_number(image: &ImageState, rank: u32) -> Option<(FewNumbers, i64)>
    requires { rank ≤ 3 }
    ensures there { IfSome result (λ p. place_size rank + 1 ≤ length image.now.core.values) }
    ensures place { IfSome result (λ p. p.0 ≡ reverse (take (place_size rank) image.now.core.values)) }
    ensures number { IfSome result (λ p. slice_get image.now.core.values (place_size rank) ≡ Some p.1) }
    ensures none { IfNone result (length image.now.core.values < place_size rank + 1) }
{
    let place = place_on_top(image, rank)?;
    let number = image.number_at(1 + 2 * rank)?;
    Some((place, number))
}

//! Elements and sections of local arrays, and their bounds (ISO/IEC 1539-1:2018, 9.5.3; ALLOCATED, LBOUND and UBOUND in
//! 16.9).

ghost use Rattle.std.specs.Prelude.{◌≡◌, ◌<◌, ◌≤◌, ◌+◌, ◌∷◌, [], length, take, reverse, IfSome};
ghost use Rattle.walk_theory.specs.Terms.{found};
ghost use Rattle.array_places.specs.Sections.{numbers_of};
ghost use Rattle.image_acts.specs.Frames.{array_in};
ghost use Rattle.local_arrays.specs.Arrays.{place_found};
ghost use Rattle.image_acts.specs.Acts as acts;
ghost use Rattle.image_acts.specs.Places as places;
ghost use Rattle.image_acts.specs.Places.{digits, place_size, subscripts_in, triplets};
ghost use Rattle.image_acts.specs.Operate.Bounds.{bounds_effect};
ghost use Rattle.image_code.specs.Table.{scope_of};
ghost use Rattle.image_state.specs.Acting.{Acts};

use crate::extents::whole_pairs;
use crate::few::FewNumbers;
use crate::forms::numbers_of_form;
use crate::locals;
use crate::offsets::offset_between;
use caf_events::fault::{NOT_ALLOCATED, ROOM};
use image_code::step::Scope;
use image_state::state::{Acting, ImageState};
use number_operators::operators::truth;

/// Does the step `Section`.
#[tactic(auto, using(crate::proofs::SectionLaws::element_placed))]
pub fn section(image: &mut ImageState, scope: Scope, x: u32, form: u32) -> Acting
    requires { length image.old.core.values + place_size (triplets (digits form)) ≤ image.old.rooms.numbers + places.numbers_of_form (digits form) }
    ensures { Acts image.old (bounds_effect (acts.section (scope_of scope) x form) image.old.core) image.new result }
{
    match near_element(image, scope, x, form) {
        None => any_section(image, scope, x, form),
        Some(offset) => {
            image.put_for_one(offset);
            Acting::Done
        }
    }
}

/// The offset of an element by one subscript on top, where it is found at once.
#[inline(always)]
#[tactic(auto, using(crate::proofs::OffsetLaws::one_place))]
fn near_element(image: &ImageState, scope: Scope, x: u32, form: u32) -> Option<i64>
    ensures form { IfSome result (λ o. form ≡ 1) }
    ensures number { IfSome result (λ o. 0 < length image.now.core.values) }
    ensures place { IfSome result (λ o. numbers_of (place_found (array_in (scope_of scope) x image.now.core) (subscripts_in (digits 1) (reverse (take 1 image.now.core.values)))) ≡ found (o ∷ [])) }
{
    if form != 1 {
        return None;
    }
    let subscript = image.top()?;
    let bounds = locals::bounds(image, scope, x)?;
    offset_between(bounds, subscript)
}

/// Does the step `Section` in any case.
#[tactic(auto, using(crate::proofs::PlaceLaws::section_long, crate::proofs::SectionLaws::section_missing, crate::proofs::SectionLaws::section_faults, crate::proofs::SectionLaws::section_placed))]
fn any_section(image: &mut ImageState, scope: Scope, x: u32, form: u32) -> Acting
    requires { length image.old.core.values + place_size (triplets (digits form)) ≤ image.old.rooms.numbers + places.numbers_of_form (digits form) }
    ensures { Acts image.old (bounds_effect (acts.section (scope_of scope) x form) image.old.core) image.new result }
{
    let n = numbers_of_form(form);
    let Some(numbers) = image.numbers_at(0, n) else {
        return Acting::Stuck;
    };
    match locals::section(image, scope, x, form, numbers) {
        Err(k) => Acting::Fault(k),
        Ok(place) => {
            image.put_numbers(n, place.as_slice());
            Acting::Done
        }
    }
}

/// Does the step `Bounds`.
#[tactic(auto, using(crate::proofs::BoundsLaws::bounds_missing, crate::proofs::BoundsLaws::bounds_full, crate::proofs::BoundsLaws::bounds_put))]
pub fn bounds(image: &mut ImageState, scope: Scope, x: u32) -> Acting
    requires { length image.old.core.arrays < image.old.rooms.arrays }
    ensures { Acts image.old (bounds_effect (acts.bounds (scope_of scope) x) image.old.core) image.new result }
{
    let Some(bounds) = locals::bounds(image, scope, x) else {
        return Acting::Fault(NOT_ALLOCATED);
    };
    let numbers = FewNumbers::copy_of(whole_pairs(bounds));
    if image.spare() < numbers.as_slice().len() {
        return Acting::Fault(ROOM);
    }
    image.begin_numbers(numbers.as_slice());
    Acting::Done
}

/// Does the step `IsThere`.
pub fn is_there(image: &mut ImageState, scope: Scope, x: u32) -> Acting
    requires { length image.old.core.values < image.old.rooms.numbers }
    ensures { Acts image.old (bounds_effect (acts.is_there (scope_of scope) x) image.old.core) image.new result }
{
    let there = locals::is_there(image, scope, x);
    image.number(truth(there))
}

//! References and definitions of elements and sections of local arrays (ISO/IEC 1539-1:2018, 9.5.3, 10.2.1).

ghost use Rattle.std.specs.Prelude.{◌≡◌, ◌<◌, ◌≤◌, ◌+◌, ◌-◌, take, reverse, length, IsTrue, IsFalse, IfSome, IfNone, true, false};
ghost use Rattle.image_acts.specs.Acts as acts;
ghost use Rattle.image_acts.specs.Frames.{array_in, local_size};
ghost use Rattle.image_acts.specs.Places.{place_in, place_size};
ghost use Rattle.image_acts.specs.Operate.Variables.{variable_effect};
ghost use Rattle.image_code.specs.Sizes.{arrays_loaded};
ghost use Rattle.image_code.specs.Table.{scope_of};
ghost use Rattle.image_state.specs.Acting.{Acts};
ghost use Rattle.array_values.specs.Values.{elements_on_top};
ghost use Rattle.local_arrays.specs.Arrays.{has_length, HasCells};

use crate::few::FewNumbers;
use crate::locals::{check, element, elements, place_on_top, place_over_number};
use array_places::place::cells_in;
use caf_base::limits::LOCAL_CELLS;
use caf_events::fault::ROOM;
use image_code::step::Scope;
use image_state::state::{Acting, ImageState};

/// The most local cells.
pub(crate) const MOST_CELLS: u64 = LOCAL_CELLS as u64;

/// Does the step `Load`.
#[tactic(auto, using(crate::proofs::LoadLaws::one_array))]
pub fn load(image: &mut ImageState, scope: Scope, x: u32, rank: u32) -> Acting
    requires rank { rank ≤ 3 }
    requires place { length image.old.core.arrays + arrays_loaded rank ≤ image.old.rooms.arrays }
    ensures { Acts image.old (variable_effect (acts.load (scope_of scope) x rank) image.old.core) image.new result }
{
    if rank == 0 {
        load_element(image, scope, x)
    } else {
        load_section(image, scope, x, rank)
    }
}

/// Does the step `Load` of rank 0.
#[inline(always)]
#[tactic(auto, using(crate::proofs::LoadLaws::element_missing, crate::proofs::LoadLaws::element_faults, crate::proofs::LoadLaws::element_loaded))]
fn load_element(image: &mut ImageState, scope: Scope, x: u32) -> Acting
    ensures { Acts image.old (variable_effect (acts.load (scope_of scope) x 0) image.old.core) image.new result }
{
    let Some(offset) = image.top() else {
        return Acting::Stuck;
    };
    match element(image, scope, x, &offset) {
        Err(k) => Acting::Fault(k),
        Ok(v) => {
            image.put_for_one(v);
            Acting::Done
        }
    }
}

/// Does the step `Load` of a section.
#[tactic(auto, using(crate::proofs::LoadLaws::load_missing, crate::proofs::LoadLaws::load_faults))]
fn load_section(image: &mut ImageState, scope: Scope, x: u32, rank: u32) -> Acting
    requires some { 0 < rank }
    requires few { rank ≤ 3 }
    requires place { length image.old.core.arrays < image.old.rooms.arrays }
    ensures { Acts image.old (variable_effect (acts.load (scope_of scope) x rank) image.old.core) image.new result }
{
    let Some(place) = place_on_top(image, rank) else {
        return Acting::Stuck;
    };
    match check(image, scope, x, place.as_slice()) {
        Err(k) => Acting::Fault(k),
        Ok(()) => load_cells(image, scope, x, rank, &place),
    }
}

/// Does it where each cell is there.
#[tactic(auto, using(crate::proofs::LoadLaws::section_full, crate::proofs::LoadLaws::section_loaded))]
fn load_cells(image: &mut ImageState, scope: Scope, x: u32, rank: u32, place: &FewNumbers) -> Acting
    requires some { 0 < rank }
    requires place { length image.old.core.arrays < image.old.rooms.arrays }
    requires numbers { place_size rank ≤ length image.old.core.values }
    requires on_top { place.now ≡ reverse (take (place_size rank) image.old.core.values) }
    requires there { HasCells (array_in (scope_of scope) x image.old.core) (place_in place.now) }
    ensures { Acts image.old (variable_effect (acts.load (scope_of scope) x rank) image.old.core) image.new result }
{
    if cells_in(place.as_slice()) > image.spare() as u64 {
        return Acting::Fault(ROOM);
    }
    image.load_section(scope, x, place.as_slice());
    image.drop_top(1 + 2 * rank as usize);
    Acting::Done
}

/// Does the step `Put`.
pub fn put(image: &mut ImageState, scope: Scope, x: u32, rank: u32) -> Acting
    requires { rank ≤ 3 }
    ensures { Acts image.old (variable_effect (acts.put (scope_of scope) x rank) image.old.core) image.new result }
{
    if rank == 0 {
        put_element(image, scope, x)
    } else {
        put_section(image, scope, x, rank)
    }
}

/// Does the step `Put` of rank 0.
#[inline(always)]
#[tactic(auto, using(crate::proofs::Changed::same_numbers, crate::proofs::PutLaws::element_missing, crate::proofs::PutLaws::element_faults, crate::proofs::PutLaws::element_put))]
fn put_element(image: &mut ImageState, scope: Scope, x: u32) -> Acting
    ensures { Acts image.old (variable_effect (acts.put (scope_of scope) x 0) image.old.core) image.new result }
{
    let Some((value, offset)) = image.two() else {
        return Acting::Stuck;
    };
    match image.store_element(scope, x, &offset, &value) {
        Err(k) => Acting::Fault(k),
        Ok(()) => {
            image.drop_top(2);
            Acting::Done
        }
    }
}

/// Does the step `Put` of a section.
#[tactic(auto, using(crate::proofs::Changed::same_numbers, crate::proofs::PutLaws::put_missing, crate::proofs::PutLaws::put_faults, crate::proofs::PutLaws::put_done))]
fn put_section(image: &mut ImageState, scope: Scope, x: u32, rank: u32) -> Acting
    requires { rank ≤ 3 }
    ensures { Acts image.old (variable_effect (acts.put (scope_of scope) x rank) image.old.core) image.new result }
{
    let Some((place, value)) = place_over_number(image, rank) else {
        return Acting::Stuck;
    };
    match check(image, scope, x, place.as_slice()) {
        Err(k) => Acting::Fault(k),
        Ok(()) => {
            image.fill(scope, x, place.as_slice(), &value);
            image.drop_top(2 + 2 * rank as usize);
            Acting::Done
        }
    }
}

/// Does the step `PutArray`.
#[tactic(auto, using(crate::proofs::Changed::same_numbers, crate::proofs::Changed::same_values, crate::proofs::PutLaws::place_missing, crate::proofs::PutLaws::array_missing, crate::proofs::PutLaws::array_faults, crate::proofs::PutLaws::array_put))]
pub fn put_array(image: &mut ImageState, scope: Scope, x: u32, rank: u32) -> Acting
    requires { rank ≤ 3 }
    ensures { Acts image.old (variable_effect (acts.put_array (scope_of scope) x rank) image.old.core) image.new result }
{
    let Some(place) = place_on_top(image, rank) else {
        return Acting::Stuck;
    };
    if !image.has_arrays(1) {
        return Acting::Stuck;
    }
    match check(image, scope, x, place.as_slice()) {
        Err(k) => Acting::Fault(k),
        Ok(()) => {
            image.put_top(scope, x, place.as_slice());
            image.drop_top_array();
            image.drop_top(1 + 2 * rank as usize);
            Acting::Done
        }
    }
}

/// Whether an array is there with as many elements as the top array value has.
#[tactic(auto, using(crate::proofs::ImageLaws::none_as_many, crate::proofs::ImageLaws::as_many_or_not))]
fn has_as_many(image: &ImageState, scope: Scope, x: u32) -> bool
    ensures is { result ≡ has_length (length (elements_on_top image.now.core.arrays)) (array_in (scope_of scope) x image.now.core) }
{
    match elements(image, scope, x) {
        None => false,
        Some(elements) => elements.len() == image.elements().len(),
    }
}

/// Does the step `PutImages`.
#[tactic(auto, using(crate::proofs::Changed::same_values, crate::proofs::ImageLaws::same_size, crate::proofs::ImageLaws::images_missing, crate::proofs::ImageLaws::images_filled))]
pub fn put_images(image: &mut ImageState, scope: Scope, x: u32) -> Acting
    ensures { Acts image.old (variable_effect (acts.put_images (scope_of scope) x) image.old.core) image.new result }
{
    if !image.has_arrays(1) {
        return Acting::Stuck;
    }
    if !has_as_many(image, scope, x) {
        return renew(image, scope, x);
    }
    image.refill_top(scope, x);
    image.drop_top_array();
    Acting::Done
}

/// How many local cells are in use with as many for an array as the top array value has elements, where there may be so
/// many.
#[tactic(auto, using(crate::proofs::ImageLaws::none_left, crate::proofs::ImageLaws::size_left))]
fn cells_with_top(image: &ImageState, scope: Scope, x: u32) -> Option<u64>
    ensures some { IfSome result (λ n. n ≡ (image.now.core.local_cells - local_size (array_in (scope_of scope) x image.now.core)) + length (elements_on_top image.now.core.arrays)) }
    ensures few { IfSome result (λ n. n ≤ 65536) }
    ensures none { IfNone result (65536 < (image.now.core.local_cells - local_size (array_in (scope_of scope) x image.now.core)) + length (elements_on_top image.now.core.arrays)) }
{
    let before = size_of(image, scope, x);
    let cells = image.local_cells().saturating_sub(before) + image.elements().len() as u64;
    if cells > MOST_CELLS {
        None
    } else {
        Some(cells)
    }
}

/// How many elements an array has.
#[tactic(auto, using(crate::proofs::ImageLaws::none_left, crate::proofs::ImageLaws::size_left))]
fn size_of(image: &ImageState, scope: Scope, x: u32) -> u64
    ensures { result ≡ local_size (array_in (scope_of scope) x image.now.core) }
{
    match elements(image, scope, x) {
        None => 0,
        Some(elements) => elements.len() as u64,
    }
}

/// Does the step `PutImages` where the array has another extent or isn't there.
#[tactic(auto, using(crate::proofs::Changed::same_values, crate::proofs::ImageLaws::images_too_many, crate::proofs::ImageLaws::images_full, crate::proofs::ImageLaws::images_renewed))]
fn renew(image: &mut ImageState, scope: Scope, x: u32) -> Acting
    requires there { 1 ≤ length image.old.core.arrays }
    requires other { has_length (length (elements_on_top image.old.core.arrays)) (array_in (scope_of scope) x image.old.core) ≡ false }
    ensures { Acts image.old (variable_effect (acts.put_images (scope_of scope) x) image.old.core) image.new result }
{
    let Some(cells) = cells_with_top(image, scope, x) else {
        return Acting::Fault(ROOM);
    };
    match image.renew_top(scope, x) {
        Err(_) => Acting::Fault(ROOM),
        Ok(()) => {
            image.drop_top_array();
            image.set_local_cells(cells);
            Acting::Done
        }
    }
}

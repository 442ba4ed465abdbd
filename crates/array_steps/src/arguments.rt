//! Arguments by copying in and out (ISO/IEC 1539-1:2018, 15.5.2).

ghost use Rattle.std.specs.Prelude.{◌≡◌, ◌<◌, length, is_some, true, None, IfSome, IfNone};
ghost use Rattle.image_acts.specs.Acts as acts;
ghost use Rattle.image_acts.specs.Frames.{array_in, local_size};
ghost use Rattle.image_acts.specs.Operate.Calling.{call_effect};
ghost use Rattle.image_state.specs.Acting.{Acts};
ghost use Rattle.array_values.specs.Extents.{listed};
ghost use Rattle.array_values.specs.Values.{elements_on_top};
ghost use Rattle.array_steps.specs.Arguments.{has_shape};

use crate::extents::{agree, extents_between};
use crate::locals::{bounds, elements};
use array_places::empty::are_small;
use array_values::extents::Extents;
use caf_events::fault::{ROOM, SHAPE};
use image_code::step::Scope;
use image_state::state::{Acting, ImageState};

/// Whether an array of the frame has these extents, and as many elements as the top array value; nothing where it isn't
/// there.
#[tactic(auto, using(crate::proofs::ArgumentLaws::shape_is, crate::proofs::ArgumentLaws::shape_there))]
fn has_shape(image: &ImageState, x: u32, extents: Extents) -> Option<bool>
    ensures some { IfSome result (λ b. b ≡ has_shape (listed extents) (length (elements_on_top image.now.core.arrays)) (array_in acts.here x image.now.core)) }
    ensures there { IfSome result (λ b. is_some (array_in acts.here x image.now.core) ≡ true) }
    ensures none { IfNone result (array_in acts.here x image.now.core ≡ None) }
{
    let bounds = bounds(image, Scope::Here, x)?;
    let elements = elements(image, Scope::Here, x)?;
    Some(agree(extents, bounds) && image.elements().len() == elements.len())
}

/// Does the step `CopyIn`.
#[tactic(auto, using(crate::proofs::Changed::same_values, crate::proofs::ArgumentLaws::shape_size, crate::proofs::ArgumentLaws::value_missing, crate::proofs::ArgumentLaws::array_missing, crate::proofs::ArgumentLaws::misfits, crate::proofs::ArgumentLaws::copied_in))]
pub fn copy_in(image: &mut ImageState, x: u32) -> Acting
    ensures { Acts image.old (call_effect (acts.copy_in x) image.old.core) image.new result }
{
    let Some(extents) = image.top_extents() else {
        return Acting::Stuck;
    };
    match has_shape(image, x, extents) {
        None => Acting::Stuck,
        Some(false) => Acting::Fault(SHAPE),
        Some(true) => {
            image.refill_top(Scope::Here, x);
            image.drop_top_array();
            Acting::Done
        }
    }
}

/// How many elements an array of the frame has.
#[tactic(auto, using(crate::proofs::ImageLaws::none_left, crate::proofs::ImageLaws::size_left))]
fn size_of(image: &ImageState, x: u32) -> usize
    ensures { result ≡ local_size (array_in acts.here x image.now.core) }
{
    match elements(image, Scope::Here, x) {
        None => 0,
        Some(elements) => elements.len(),
    }
}

/// Does the step `CopyOut`.
#[tactic(auto, using(crate::proofs::ArgumentLaws::out_missing, crate::proofs::ArgumentLaws::out_wide, crate::proofs::ArgumentLaws::out_full, crate::proofs::ArgumentLaws::copied_out))]
pub fn copy_out(image: &mut ImageState, x: u32) -> Acting
    requires { length image.old.core.arrays < image.old.rooms.arrays }
    ensures { Acts image.old (call_effect (acts.copy_out x) image.old.core) image.new result }
{
    let Some(bounds) = bounds(image, Scope::Here, x) else {
        return Acting::Stuck;
    };
    if !are_small(bounds) {
        return Acting::Fault(ROOM);
    }
    let extents = extents_between(bounds);
    if image.spare() < size_of(image, x) {
        return Acting::Fault(ROOM);
    }
    image.copy_out(Scope::Here, x, extents);
    Acting::Done
}

//! Output, and SYNC IMAGES (ISO/IEC 1539-1:2018, 12.6.3, 11.6.4).

ghost use Rattle.std.specs.Prelude.{◌≡◌, map, IfOk};
ghost use Rattle.caf_events.specs.declared.reply.Reply.{Reply};
ghost use Rattle.array_values.specs.Values.{elements_on_top};
ghost use Rattle.image_code.specs.declared.step.AskStep.TheVariants as asked;
ghost use Rattle.image_asks.specs.Asking.{named_by, ComesTo, IsAsking, IsAsked, GoesOnWith, ask_here};

use crate::asks::Asking;
use caf_base::listing::Listing;
use caf_base::place::ImageNo;
use caf_base::refusal::NoMemory;
use caf_events::ask::Ask;
use caf_events::fault::FORMAT;
use image_state::state::ImageState;

/// Whether there is a text, and one without a fault.
pub(crate) fn says(image: &ImageState) -> Asking
    ensures { ComesTo (ask_here image.now asked.Say) result }
{
    if !image.has_text() {
        Asking::Stuck
    } else if image.has_fault() {
        Asking::Fault(FORMAT)
    } else {
        Asking::Asks
    }
}

/// Output of the innermost text.
pub(crate) fn printing(image: &ImageState) -> Result<Ask, NoMemory>
    requires { IsAsking (ask_here image.now asked.Say) }
    ensures { IfOk result (λ a. IsAsked (ask_here image.now asked.Say) a) }
{
    let text = image.text()?;
    Ok(Ask::Print { text })
}

/// Drops the text that was printed.
pub(crate) fn forget_text(image: &mut ImageState)
    requires { IsAsking (ask_here image.old asked.Say) }
    ensures { (r : Reply) → GoesOnWith image.old (ask_here image.old asked.Say) r image.new }
{
    image.end_text();
}

/// Whether there are images for SYNC IMAGES.
pub(crate) fn pairs(image: &ImageState) -> Asking
    ensures { ComesTo (ask_here image.now asked.Pair) result }
{
    if image.has_arrays(1) {
        Asking::Asks
    } else {
        Asking::Stuck
    }
}

/// SYNC IMAGES.
pub(crate) fn pairing(image: &ImageState) -> Result<Ask, NoMemory>
    requires { IsAsking (ask_here image.now asked.Pair) }
    ensures { IfOk result (λ a. IsAsked (ask_here image.now asked.Pair) a) }
{
    let images = members_named(image)?;
    Ok(Ask::Pair { images })
}

/// The members of the current team with the indices in the top array.
fn members_named(image: &ImageState) -> Result<Listing<ImageNo>, NoMemory>
    ensures { IfOk result (λ l. l ≡ map (named_by image.now.core) (elements_on_top image.now.core.arrays)) }
{
    let indices = image.elements();
    let mut named = Vec::with_capacity(image.alloc(), indices.len())?;
    for i in 0..indices.len() {
        named.push_reserved(ImageNo(image.member(indices[i])));
    }
    Ok(Listing::from_vec(named))
}

/// Drops the images of SYNC IMAGES.
pub(crate) fn forget_indices(image: &mut ImageState)
    requires { IsAsking (ask_here image.old asked.Pair) }
    ensures { (r : Reply) → GoesOnWith image.old (ask_here image.old asked.Pair) r image.new }
{
    image.drop_top_array();
}

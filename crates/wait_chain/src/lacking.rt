//! The least image that hasn't come to where an image waits for it.

ghost use Rattle.std.specs.Prelude.{◌≡◌};
ghost use Rattle.wait_chain.specs.Counts.{has_come, lacks, is_left};
ghost use Rattle.wait_chain.specs.Awaited.{IsLeast};

use crate::counts::{Step, contains, has_ended, tally};
use caf_events::event::Entry;
use std::alloc::Global;

/// What an image waits for others to do: to arrive in a round of a team by an image control statement or by a
/// collective subroutine, or to begin the SYNC IMAGES that corresponds to its own last one.
#[derive(Clone, Copy)]
pub enum Due {
    Arrival { team: u32, round: u64 },
    Gathering { team: u32, round: u64 },
    Partner { image: u32 },
}

// Whether the other image has begun the SYNC IMAGES that corresponds to the last one of this image.
fn has_partner(alloc: Global, image: u32, before: &[Entry], other: u32) -> bool
    ensures { result ≡ has_come (Due.Partner image) before.now other }
{
    let ours = tally(alloc, Step::Names { image, other }, before);
    let theirs = tally(
        alloc,
        Step::Names {
            image: other,
            other: image,
        },
        before,
    );
    ours <= theirs
}

// Whether the image has done so.
fn has_come(alloc: Global, due: Due, before: &[Entry], image: u32) -> bool
    ensures { result ≡ has_come due before.now image }
{
    match due {
        Due::Arrival { team, round } => round <= tally(alloc, Step::Joins { team, image }, before),
        Due::Gathering { team, round } => {
            round <= tally(alloc, Step::Gathers { team, image }, before)
        }
        Due::Partner { image: waiting } => has_partner(alloc, waiting, before, image),
    }
}

// Whether the image is one of these, hasn't done so, and has neither stopped nor failed.
fn is_lacking(alloc: Global, due: Due, images: &[u32], before: &[Entry], image: u32) -> bool
    ensures { result ≡ lacks due images.now before.now image }
{
    contains(images, image)
        && !has_come(alloc, due, before, image)
        && !has_ended(alloc, image, before)
}

/// The least of so many images that is one of these, hasn't done so, and has neither stopped nor failed.
pub(crate) fn least_lacking(
    alloc: Global,
    n: u32,
    due: Due,
    images: &[u32],
    before: &[Entry],
) -> Option<u32>
    ensures { IsLeast (lacks due images.now before.now) n result }
{
    for number in 0..n {
        if is_lacking(alloc, due, images, before, number + 1) {
            return Some(number + 1);
        }
    }
    None
}

// Whether the image has neither stopped nor failed.
fn is_left(alloc: Global, before: &[Entry], image: u32) -> bool
    ensures { result ≡ is_left before.now image }
{
    !has_ended(alloc, image, before)
}

/// The least of so many images that has neither stopped nor failed.
pub(crate) fn first_left(alloc: Global, n: u32, before: &[Entry]) -> Option<u32>
    ensures { IsLeast (is_left before.now) n result }
{
    for number in 0..n {
        if is_left(alloc, before, number + 1) {
            return Some(number + 1);
        }
    }
    None
}

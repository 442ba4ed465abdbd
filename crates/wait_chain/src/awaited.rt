//! For which image another one waits with an ask.

ghost use Rattle.std.specs.Prelude.{◌≡◌, IfOk};
ghost use Rattle.wait_chain.specs.Counts.{lacks};
ghost use Rattle.wait_chain.specs.Awaited.{awaited_by, awaits, is_it, IsLeast};

use crate::counts::named;
use crate::holders::{LockCell, inside, lock_holder};
use crate::lacking::{Due, least_lacking};
use crate::told::members;
use caf_base::place::ImageNo;
use caf_base::refusal::NoMemory;
use caf_base::span::Span;
use caf_events::ask::Ask;
use caf_events::event::Entry;
use std::alloc::Global;

/// What an image waits for: arrivals in a round of a team, by image control statements or by collective subroutines;
/// the SYNC IMAGES that correspond to its own; that a lock is unlocked or a construct left; or no image, as in EVENT
/// WAIT.
#[derive(Clone, Copy)]
pub enum Awaited {
    Arrival { team: u32, round: u64 },
    Gathering { team: u32, round: u64 },
    Partner,
    Unlock { cell: LockCell },
    Exit { construct: u32 },
    NoImage,
}

// The first cell of a span of this image's memory.
fn first_cell(owner: ImageNo, span: &Span) -> LockCell
    ensures { result ≡ record { owner = owner.0; coarray = span.now.coarray; offset = span.now.start } }
{
    LockCell {
        owner: owner.0,
        coarray: span.coarray,
        offset: span.start,
    }
}

/// What an image waits for with this ask.
pub(crate) fn awaited_by(ask: &Ask) -> Awaited
    ensures { result ≡ awaited_by ask.now }
{
    match ask {
        Ask::Leave { team, round } => Awaited::Arrival {
            team: team.0,
            round: *round,
        },
        Ask::Take { team, round } => Awaited::Gathering {
            team: team.0,
            round: *round,
        },
        Ask::Unpair => Awaited::Partner,
        Ask::Lock { owner, span } => Awaited::Unlock {
            cell: first_cell(*owner, span),
        },
        Ask::Enter { construct } => Awaited::Exit {
            construct: *construct,
        },
        _ => Awaited::NoImage,
    }
}

// The image, where it is one of the n images of a run.
fn of_run(n: u32, image: Option<u32>) -> Option<u32>
    ensures { IsLeast (is_it image) n result }
{
    match image {
        Some(number) if 1 <= number && number <= n => image,
        _ => None,
    }
}

// The least of these images that hasn't come.
fn least_of(alloc: Global, n: u32, due: Due, images: Vec<u32>, before: &[Entry]) -> Option<u32>
    ensures { IsLeast (lacks due images.items before.now) n result }
{
    let least = least_lacking(alloc, n, due, images.as_slice(), before);
    drop(images);
    least
}

/// The least image for which the image waits, where it waits for this.
pub(crate) fn least_awaited(
    alloc: Global,
    n: u32,
    before: &[Entry],
    image: u32,
    awaited: Awaited,
) -> Result<Option<u32>, NoMemory>
    ensures { IfOk result (λ o. IsLeast (awaits n before.now image awaited) n o) }
{
    match awaited {
        Awaited::Arrival { team, round } => {
            let images = members(alloc, n, team, before)?;
            Ok(least_of(alloc, n, Due::Arrival { team, round }, images, before))
        }
        Awaited::Gathering { team, round } => {
            let images = members(alloc, n, team, before)?;
            Ok(least_of(alloc, n, Due::Gathering { team, round }, images, before))
        }
        Awaited::Partner => {
            let images = named(alloc, image, before)?;
            Ok(least_of(alloc, n, Due::Partner { image }, images, before))
        }
        Awaited::Unlock { cell } => Ok(of_run(n, lock_holder(alloc, cell, before))),
        Awaited::Exit { construct } => Ok(of_run(n, inside(alloc, construct, before))),
        Awaited::NoImage => Ok(None),
    }
}

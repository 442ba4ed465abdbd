//! The chain of waits of a run in which no image goes on.

ghost use Rattle.std.specs.Prelude.{◌≡◌, [], ◌∷◌, IfOk};
ghost use Rattle.object_rules.specs.Happenings.{numbers_of};
ghost use Rattle.wait_chain.specs.Awaited.{awaited_in};
ghost use Rattle.wait_chain.specs.ToldChains.{IsToldChain};
ghost use Rattle.wait_chain.specs.Links.{close_of, last_of, IsOpen, ComesBehind};
ghost use Rattle.wait_chain.specs.Reports.{as_waits};

use crate::awaited::{Awaited, awaited_by, least_awaited};
use crate::lacking::first_left;
use crate::links::{Behind, Chain, Close, comes_behind};
use caf_base::listing::Listing;
use caf_base::place::ImageNo;
use caf_base::refusal::NoMemory;
use caf_events::event::Entry;
use caf_report::report::Waiting;
use std::alloc::Global;

// What the image waits for with its ask among these.
fn awaited_in(waits: &[Waiting], image: u32) -> Awaited
    ensures { result ≡ awaited_in (as_waits waits.now) image }
{
    for wait in waits {
        if wait.image.0 == image {
            return awaited_by(&wait.ask);
        }
    }
    Awaited::NoImage
}

// What comes behind these links, of which this is the last one.
fn further(
    alloc: Global,
    n: u32,
    before: &[Entry],
    waits: &[Waiting],
    links: &[ImageNo],
    last: ImageNo,
) -> Result<Behind, NoMemory>
    requires open { IsOpen n before.now (as_waits waits.now) (numbers_of links.now) }
    requires last { last_of (numbers_of links.now) ≡ last.0 }
    ensures { IfOk result (λ b. ComesBehind n before.now (as_waits waits.now) (numbers_of links.now) b) }
{
    let awaited = awaited_in(waits, last.0);
    let next = least_awaited(alloc, n, before, last.0, awaited)?;
    Ok(comes_behind(alloc, before, links, next))
}

// The chain that begins with this image.
fn why_from(
    alloc: Global,
    before: &[Entry],
    n: u32,
    waits: &[Waiting],
    first: ImageNo,
) -> Result<Chain, NoMemory>
    requires { IsOpen n before.now (as_waits waits.now) (first.0 ∷ []) }
    ensures { IfOk result (λ c. IsToldChain n before.now (as_waits waits.now) (numbers_of c.links) (close_of c.close)) }
{
    let mut last = first;
    let mut links = Listing::of_one(alloc, last)?;
    for count in 0..n {
        match further(alloc, n, before, waits, links.as_slice(), last)? {
            Behind::Next { image } => {
                last = image;
                links.push(image)?;
            }
            Behind::Closes { close } => return Ok(Chain { links, close }),
        }
    }
    unreachable!()
}

/// The chain of waits that the trace of a run of n images tells, where images wait with these asks. It begins with the
/// least image that is left; each further image is the least one for which the last one waits; and it closes with a
/// post, where that is none, with an image that has stopped, or with one of its own. It has no links where no image is
/// left.
pub fn why(alloc: Global, before: &[Entry], n: u32, waits: &[Waiting]) -> Result<Chain, NoMemory>
    ensures { IfOk result (λ c. IsToldChain n before.now (as_waits waits.now) (numbers_of c.links) (close_of c.close)) }
{
    match first_left(alloc, n, before) {
        Some(first) => why_from(alloc, before, n, waits, ImageNo(first)),
        None => Ok(Chain {
            links: Listing::new(alloc),
            close: Close::Post,
        }),
    }
}

//! The links of a chain of waits, and what comes behind them.

ghost use Rattle.std.specs.Prelude.{◌≡◌};
ghost use Rattle.object_rules.specs.Happenings.{numbers_of};
ghost use Rattle.wait_chain.specs.Links.{behind};

use crate::counts::{has_stopped, names};
use caf_base::listing::Listing;
use caf_base::place::ImageNo;
use caf_events::event::Entry;
use std::alloc::Global;

/// How a chain closes: its last image waits for a post (EVENT WAIT), for an image that has stopped, or for one of the
/// chain.
#[derive(Clone, Copy)]
pub enum Close {
    Post,
    Stopped { image: ImageNo },
    Cycle { image: ImageNo },
}

/// Images of which each waits for the next one, and how that ends.
#[derive(Drop)]
pub struct Chain {
    pub links: Listing<ImageNo>,
    pub close: Close,
}

/// What comes behind the links that a chain has so far: a further one, or its close.
#[derive(Clone, Copy)]
pub enum Behind {
    Next { image: ImageNo },
    Closes { close: Close },
}

/// What comes behind these links, where this is the next image.
pub(crate) fn comes_behind(
    alloc: Global,
    before: &[Entry],
    links: &[ImageNo],
    next: Option<u32>,
) -> Behind
    ensures { result ≡ behind before.now (numbers_of links.now) next }
{
    match next {
        None => Behind::Closes { close: Close::Post },
        Some(image) if has_stopped(alloc, image, before) => Behind::Closes {
            close: Close::Stopped {
                image: ImageNo(image),
            },
        },
        Some(image) if names(links, image) => Behind::Closes {
            close: Close::Cycle {
                image: ImageNo(image),
            },
        },
        Some(image) => Behind::Next {
            image: ImageNo(image),
        },
    }
}

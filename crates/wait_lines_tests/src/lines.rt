//! The lines of four chains.

use caf_base::listing::Listing;
use caf_base::place::ImageNo;
use std::alloc::Global;
use std::process::Abort;
use wait_chain::links::{Chain, Close};
use wait_lines::why_text;

// Whether a chain has these lines is judged.
fn says<R: Abort>(rt: &R, alloc: Global, chain: Chain, wanted: &str) {
    let text = why_text(alloc, &chain);
    drop(chain);
    let text = text.expect(rt, "memory");
    assert!(rt; text.as_slice() == wanted.as_bytes(), "{wanted}");
}

// SYNC IMAGES without a partner beside SYNC ALL, and two locks in two orders: each image waits for the other.
#[test]
fn two_images_wait_for_each_other(rt: HostRuntime) {
    let alloc = rt.alloc();
    let links = Listing::from_slice(alloc, &[ImageNo(1), ImageNo(2)]).expect(&rt, "memory");
    let close = Close::Cycle { image: ImageNo(1) };
    says(
        &rt,
        alloc,
        Chain { links, close },
        "why image 1 waits for image 2\nwhy image 2 waits for image 1\nwhy cycle from image 1\n",
    );
}

// EVENT WAIT of an event that nobody posts.
#[test]
fn one_image_waits_for_a_post(rt: HostRuntime) {
    let alloc = rt.alloc();
    let links = Listing::of_one(alloc, ImageNo(1)).expect(&rt, "memory");
    says(
        &rt,
        alloc,
        Chain {
            links,
            close: Close::Post,
        },
        "why image 1 waits for a post\n",
    );
}

// LOCK of a variable with which another image stopped.
#[test]
fn the_holder_has_stopped(rt: HostRuntime) {
    let alloc = rt.alloc();
    let links = Listing::of_one(alloc, ImageNo(2)).expect(&rt, "memory");
    let close = Close::Stopped { image: ImageNo(1) };
    says(
        &rt,
        alloc,
        Chain { links, close },
        "why image 2 waits for image 1\nwhy image 1 stopped\n",
    );
}

// A chain whose cycle doesn't lead back to its first link.
#[test]
fn the_cycle_begins_later(rt: HostRuntime) {
    let alloc = rt.alloc();
    let images = [ImageNo(1), ImageNo(3), ImageNo(256)];
    let links = Listing::from_slice(alloc, &images).expect(&rt, "memory");
    let close = Close::Cycle { image: ImageNo(3) };
    says(
        &rt,
        alloc,
        Chain { links, close },
        "why image 1 waits for image 3\nwhy image 3 waits for image 256\nwhy image 256 waits for image 3\nwhy cycle from image 3\n",
    );
}

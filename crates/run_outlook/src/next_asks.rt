//! The images' next asks that are known, each kept until its step is made.

ghost use Rattle.std.specs.Prelude.{◌≡◌, ◌<◌, ◌≤◌, ℕ, length, IfOk, MatchOption, Some, None, replicate};
ghost use Rattle.core_runs.specs.Moments.{item_at, with_item};

use caf_base::place::ImageNo;
use caf_base::refusal::NoMemory;
use caf_events::ask::Ask;
use std::alloc::Global;
use std::mem;

/// The next ask of each image, by number from 1; None where it isn't kept.
#[derive(Drop)]
pub struct NextAsks {
    kept: Vec<Option<Ask>>,
}

impl NextAsks {
    /// No ask is kept of any of so many images.
    pub fn new(alloc: Global, images: u32) -> Result<NextAsks, NoMemory>
        ensures { IfOk result (λ asks. asks.kept.items ≡ replicate images None) }
    {
        let mut kept = Vec::new(alloc);
        for _ in 0..images {
            kept.push(None)?;
        }
        Ok(NextAsks { kept })
    }

    /// The next ask of an image, where it is kept.
    pub fn get(&self, image: ImageNo) -> Option<&Ask>
        requires { (0 < image.0) × (image.0 ≤ length self.now.kept.items) }
        ensures { MatchOption result (item_at self.now.kept.items image.0 ≡ Some None) (λ a. item_at self.now.kept.items image.0 ≡ Some (Some a.now)) }
    {
        self.kept[(image.0 - 1) as usize].as_ref()
    }

    /// Keeps the next ask of an image, of which none is kept.
    pub fn keep(&mut self, image: ImageNo, ask: Ask)
        requires image { (0 < image.0) × (image.0 ≤ length self.old.kept.items) }
        requires none { item_at self.old.kept.items image.0 ≡ Some None }
        ensures { self.new.kept.items ≡ with_item self.old.kept.items image.0 (Some ask) }
    {
        match mem::replace(&mut self.kept[(image.0 - 1) as usize], Some(ask)) {
            None => {}
            Some(_) => unreachable!(),
        }
    }

    /// Gives the next ask of an image, where it is kept, and keeps it no more.
    pub fn take(&mut self, image: ImageNo) -> Option<Ask>
        requires { (0 < image.0) × (image.0 ≤ length self.old.kept.items) }
        ensures taken { item_at self.old.kept.items image.0 ≡ Some result }
        ensures kept { self.new.kept.items ≡ with_item self.old.kept.items image.0 None }
    {
        self.kept[(image.0 - 1) as usize].take()
    }
}

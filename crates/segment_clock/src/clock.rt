//! A count of segments for each image.

ghost use Rattle.std.specs.Prelude.{◌≡◌, ◌<◌, ◌≤◌, ◌-◌, ◌^◌, ◌↔◌, length, replicate, IfOk, IsTrue};
ghost use Rattle.segment_clock.specs.Counts.{count_of, joined, ticked};

use caf_base::place::ImageNo;
use caf_base::refusal::NoMemory;
use std::alloc::Global;
use std::marker::Model;

/// A count for each image, the first for image 1. In a contract it is the list of its counts.
#[derive(Drop)]
pub struct Clock {
    counts: Vec<u64>,
}

impl Model for Clock {
    ghost use Rattle.std.specs.Prelude.{ℕ, List};

    ghost Value = { List ℕ };

    ghost view = { λ c. c.counts.items };
}

impl Clock {
    /// A count of 0 for each of n images.
    pub fn new(alloc: Global, n: u32) -> Result<Clock, NoMemory>
        ensures { IfOk result (λ c. c ≡ replicate n 0) }
    {
        Ok(Clock {
            counts: Vec::from_elem(alloc, 0, n as usize)?,
        })
    }

    /// Takes the greater count of each image, from a clock with as many counts. It takes no memory.
    #[tactic(auto, using(crate::proofs::Joins::joined_step, crate::proofs::Joins::joined_none))]
    pub fn join(&mut self, other: &Clock)
        requires { length other.now ≡ length self.old }
        ensures { self.new ≡ joined self.old other.now }
    {
        for (i, count) in other.counts.iter().enumerate() {
            self.counts[i] = self.counts[i].max(*count);
        }
    }

    /// Whether the segment with this number, from 0, is below the count of the image, which is one from 1 to the number
    /// of counts.
    pub fn covers(&self, image: ImageNo, segment: u64) -> bool
        requires first { 0 < image.0 }
        requires last { image.0 ≤ length self.now }
        ensures { IsTrue result ↔ (segment < count_of self.now image.0) }
    {
        segment < self.counts[(image.0 - 1) as usize]
    }

    /// Adds one to the count, which is below 2^64 - 1, of an image from 1 to the number of counts. It takes no memory.
    pub fn tick(&mut self, image: ImageNo)
        requires first { 0 < image.0 }
        requires last { image.0 ≤ length self.old }
        requires room { count_of self.old image.0 < 2 ^ 64 - 1 }
        ensures { self.new ≡ ticked self.old image.0 }
    {
        self.counts[(image.0 - 1) as usize] += 1;
    }

    /// Makes the counts equal to those of a clock with as many. It takes no memory.
    pub fn set(&mut self, other: &Clock)
        requires { length other.now ≡ length self.old }
        ensures { self.new ≡ other.now }
    {
        self.counts.copy_from_slice(&other.counts);
    }

    /// Makes each count 0. It takes no memory.
    pub fn clear(&mut self)
        ensures { self.new ≡ replicate (length self.old) 0 }
    {
        self.counts.fill(0);
    }
}

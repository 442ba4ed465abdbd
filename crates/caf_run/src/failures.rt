//! The failures of a run, by image.

ghost use Rattle.std.specs.Prelude.{◌≡◌, ℕ, IfOk};
ghost use Rattle.std.specs.List.{AllByRecursion};
ghost use Rattle.lane_parts.specs.FirstLanes.{fails_at};
ghost use Rattle.caf_run.specs.Failures as spec;
ghost use Rattle.caf_run.specs.Failures.{IsOfImage};

use caf_base::limits::IMAGES;
use caf_base::refusal::NoMemory;
use caf_words::command::FailAt;
use std::alloc::Global;

// The earlier of two events by their numbers, where 0 is none.
fn earlier(a: u32, b: u32) -> u32
    ensures { result ≡ spec.earlier a b }
{
    if a == 0 {
        return b;
    }
    if b == 0 || a < b { a } else { b }
}

// The number of the first event with which an image is to fail; 0 where it isn't.
fn first_failure(fails: &[FailAt], image: u32) -> u32
    ensures { result ≡ spec.first_failure fails.now image }
{
    let mut first = 0;
    for fail in fails {
        if fail.image == image {
            first = earlier(first, fail.step);
        }
    }
    first
}

/// With which of its events each image is to fail, from image 1 on; 0 is none.
pub fn by_image(alloc: Global, fails: &[FailAt]) -> Result<Vec<u32>, NoMemory>
    requires { AllByRecursion IsOfImage fails.now }
    ensures { IfOk result (λ v. (i : ℕ) → fails_at v.items i ≡ spec.first_failure fails.now i) }
{
    let mut events = Vec::new(alloc);
    for k in 0..IMAGES {
        events.push(first_failure(fails, k + 1))?;
    }
    Ok(events)
}

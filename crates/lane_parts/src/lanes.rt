//! The lanes of a run.

ghost use Rattle.std.specs.Prelude.{◌≡◌, ◌<◌, ◌+◌, ◌^◌, length, map, IfOk};
ghost use Rattle.image_lanes.specs.LaneStates.{lane_of};
ghost use Rattle.lane_parts.specs.FirstLanes.{fails_at, first_lanes};

use caf_base::place::ImageNo;
use caf_base::refusal::NoMemory;
use caf_events::walker::Walker;
use image_lanes::lane::Lane;
use std::alloc::Global;

// With which of its events the image at a place fails, counted from 1; 0 for none.
fn fails_at(fails: &[u32], place: usize) -> u32
    ensures { result ≡ fails_at fails.now (place + 1) }
{
    fails.get(place).copied().unwrap_or(0)
}

/// A lane over each machine, by image number from 1. Image i fails at its event of the number that `fails` has for it,
/// counted from 1 (0 or no number: it doesn't); with `words` recorded words or more its next step is the limit.
pub(crate) fn lanes<M: Walker + Drop>(
    alloc: Global,
    machines: Vec<M>,
    fails: &[u32],
    words: u32,
) -> Result<Vec<Lane<M>>, NoMemory>
    requires { length machines.items < 2 ^ 31 }
    ensures { IfOk result (λ v. map (lane_of M.Walker) v.items ≡ first_lanes (fails_at fails.now) words 1 (map M.config machines.items)) }
{
    let mut lanes = Vec::new(alloc);
    for machine in machines {
        let place = lanes.len();
        let image = ImageNo(place as u32 + 1);
        lanes.push(Lane::new(alloc, image, fails_at(fails, place), words, machine))?;
    }
    Ok(lanes)
}

//! A clock that several queues keep.

ghost use Rattle.std.specs.Prelude.{◌≡◌, ℕ, length, IfOk};

use crate::table::copied;
use caf_base::refusal::NoMemory;
use segment_clock::clock::Clock;
use std::alloc::Global;
use std::marker::Model;
use std::sync::Arc;

/// A clock as it was when it was kept, for all that keep it. In a contract it is the list of its counts.
#[derive(Drop)]
pub struct SharedClock {
    clock: Arc<Clock>,
}

impl Model for SharedClock {
    ghost use Rattle.std.specs.Prelude.{ℕ, List};
    ghost use Rattle.std.specs.Arc.{arc_value};

    ghost Value = { List ℕ };

    ghost view = { λ s. arc_value s.clock };
}

impl SharedClock {
    /// A copy of a clock, to be shared.
    pub fn new(alloc: Global, n: u32, clock: &Clock) -> Result<SharedClock, NoMemory>
        requires { length clock.now ≡ n }
        ensures { IfOk result (λ s. s ≡ clock.now) }
    {
        Ok(SharedClock {
            clock: Arc::new(alloc, copied(alloc, n, clock)?)?,
        })
    }

    /// The same clock for one more that keeps it. It takes no memory.
    pub fn again(&self) -> Result<SharedClock, NoMemory>
        ensures { IfOk result (λ s. s ≡ self.now) }
    {
        Ok(SharedClock {
            clock: self.clock.clone()?,
        })
    }

    /// The clock.
    pub fn clock(&self) -> &Clock
        ensures { result.now ≡ self.now }
    {
        &self.clock
    }
}

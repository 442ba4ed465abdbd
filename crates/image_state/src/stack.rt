//! Numbers that are moved on the stack, and the status of an access on top of it.

ghost use Rattle.std.specs.Prelude.{◌≡◌, ◌≤◌, ◌+◌, length};
ghost use Rattle.std.specs.Ordering.{int_eq};
ghost use Rattle.image_acts.specs.Acts as acts;
ghost use Rattle.image_acts.specs.Operate.Stack.{stack_effect};
ghost use Rattle.image_state.specs.Acting.{Acts};

use crate::state::{Acting, ImageState};
use caf_events::fault::{NOT_ALLOCATED, OVERFLOW};

/// What stands in the place of a status where the coarray isn't there, and where a result leaves its kind.
const ABSENT: i64 = -1;

const OVERFLOWED: i64 = -2;

impl ImageState {
    /// Does the step `Copy`.
    #[tactic(auto, using(crate::proofs::StackLaws::none_repeated, crate::proofs::StackLaws::repeated, crate::proofs::StackLaws::not_repeated))]
    pub fn copy(&mut self, depth: u32, n: u32) -> Acting
        requires { length self.old.core.values + n ≤ self.old.rooms.numbers }
        ensures { Acts self.old (stack_effect (acts.copy depth n) self.old.core) self.new result }
    {
        if n == 0 {
            Acting::Done
        } else if self.has(depth, n) {
            self.repeat(depth, n);
            Acting::Done
        } else {
            Acting::Stuck
        }
    }

    /// Does the step `Bring`.
    #[tactic(auto, using(crate::proofs::StackLaws::brought, crate::proofs::StackLaws::not_brought))]
    pub fn bring(&mut self, depth: u32, n: u32) -> Acting
        ensures { Acts self.old (stack_effect (acts.bring depth n) self.old.core) self.new result }
    {
        if self.has(depth, n) {
            self.raise(depth, n);
            Acting::Done
        } else {
            Acting::Stuck
        }
    }

    /// Does the step `Accessed`.
    #[tactic(auto, using(crate::proofs::StackLaws::accessed_nothing, crate::proofs::StackLaws::accessed_past, crate::proofs::StackLaws::accessed_well, crate::proofs::StackLaws::accessed_missing))]
    pub fn accessed(&self) -> Acting
        ensures { Acts self.now (stack_effect acts.accessed self.now.core) self.now result }
    {
        match self.top() {
            None => Acting::Stuck,
            Some(status) => {
                if is(status, ABSENT) {
                    Acting::Fault(NOT_ALLOCATED)
                } else if is(status, OVERFLOWED) {
                    Acting::Fault(OVERFLOW)
                } else {
                    Acting::Done
                }
            }
        }
    }
}

/// Whether a status is this one.
fn is(status: i64, other: i64) -> bool
    ensures { result ≡ int_eq status other }
{
    status == other
}

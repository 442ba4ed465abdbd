//! What a decided run says of every other run of the same programs, as far as it is proved.

ghost use Rattle.free_replies.specs.Subsets.{IsOfMemories};
ghost use Rattle.free_replies.specs.Law.{EveryOrderOf};

use caf_events::walker::Walker;

/// A decided run of accesses, prints, SYNC MEMORY and STOP, in which each image has ended, speaks for every order.
pub fn law_memories<M: Walker>()
    ensures { EveryOrderOf M.Walker.step M.Walker.hears IsOfMemories }
{}

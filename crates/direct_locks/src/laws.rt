//! The parts of the statements of locks and events against what the statements do.

ghost use Rattle.direct_locks.specs.Laws.{LockLaw};

/// The parts of a LOCK, an UNLOCK, an EVENT POST or an EVENT WAIT in the walk do what the statement does, at every
/// line, for each reply and from each core with room for array values in which no evaluation cell is in use but those
/// of the callers: the same ask of the same cell in the same state, the same fault, and its status and what was
/// acquired in the same variables, that of the image selector first. Nothing is claimed of a reply that doesn't answer
/// its ask (`unsaid`).
pub fn law_lock_statement_does_what_it_means()
    ensures { LockLaw }
{}

//! The parts of image control statements against what the statements do.

ghost use Rattle.direct_control.specs.Laws.{ControlLaw};

/// The parts of a SYNC ALL, SYNC MEMORY, SYNC IMAGES or SYNC TEAM statement in the walk, and those of the head of a
/// CRITICAL construct, do what the statement does, at every line, for each reply and from each core with room for array
/// values in which no evaluation cell is in use but those of the callers: the same asks in the same states, the same
/// fault or end of the image; and they leave the stack as it was. Nothing is claimed of a reply that doesn't answer its
/// ask (`unsaid`).
pub fn law_control_statement_does_what_it_means()
    ensures { ControlLaw }
{}

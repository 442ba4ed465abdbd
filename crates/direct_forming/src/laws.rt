//! The parts of FORM TEAM against what it does.

ghost use Rattle.direct_forming.specs.Laws.{FormingLaw};

/// The parts of a FORM TEAM in the walk do what it means, at every line, for each reply and from each core with room
/// for array values in which no evaluation cell is in use but those of the callers: the same asks with the number and
/// the new index in the order in which they are written, the same teams known behind it, and the team variable with the
/// one that has this image. Nothing is claimed of a reply that doesn't answer its ask (`unsaid`).
pub fn law_form_team_does_what_it_means()
    ensures { FormingLaw }
{}

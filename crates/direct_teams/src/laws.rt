//! The parts of CHANGE TEAM and END TEAM against what they do.

ghost use Rattle.direct_teams.specs.Laws.{TeamLaw};

/// The parts of a CHANGE TEAM in the walk, and those of its END TEAM, do what they mean, at every line, for each reply
/// and from each core with room for array values in which no evaluation cell is in use but those of the callers: the
/// same asks in the same states, among them the deallocations in declared order, the same fault or end of the image;
/// and they leave the stack as it was. Nothing is claimed of a reply that doesn't answer its ask (`unsaid`).
pub fn law_team_construct_does_what_it_means()
    ensures { TeamLaw }
{}

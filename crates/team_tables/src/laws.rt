//! A table of teams says what a core says of teams, and changes as the steps on teams change a core.

ghost use Rattle.team_tables.specs.Steps.{DoesToTeams, NamesTeams, SaysOfTeams};

/// The current team, members, siblings and established coarrays are those of each core with these teams.
pub fn law_table_says_what_a_core_says()
    ensures { SaysOfTeams }
{}

/// The steps on the current team, the one that notes teams and the reply of a `leave` do to a core what they do to its
/// table.
pub fn law_steps_change_the_table()
    ensures { DoesToTeams }
{}

/// The steps that name teams find what its table finds.
pub fn law_steps_name_what_the_table_names()
    ensures { NamesTeams }
{}

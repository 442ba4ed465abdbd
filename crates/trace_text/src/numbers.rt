//! A table of the team numbers that the replies of a trace give.

ghost use Rattle.std.specs.Prelude.{◌≡◌, ◌∷◌, [], OnOk};
ghost use Rattle.trace_text.specs.Forms.{number_among, number_in_reply, number_by_table, Gains};

use caf_base::place::{INITIAL_TEAM, TeamNo};
use caf_base::refusal::NoMemory;
use caf_events::reply::{FormedTeam, Reply};
use std::collections::BTreeMap;

/// The team number of a team by a table: -1 for the initial one, nothing where it has none.
pub(crate) fn number_of(numbers: &BTreeMap<u32, i64>, team: TeamNo) -> Option<i64>
    ensures { result ≡ number_by_table numbers.now team.0 }
{
    if team.0 == INITIAL_TEAM.0 {
        Some(-1)
    } else {
        numbers.get(&team.0).copied()
    }
}

// Puts the team number of a team into the table, where it has none.
fn note_team(numbers: &mut BTreeMap<u32, i64>, team: &FormedTeam) -> Result<(), NoMemory>
    ensures { OnOk result (Gains numbers.old (λ q. number_among q (team.now ∷ [])) numbers.new) }
{
    if numbers.contains_key(&team.team.0) {
        return Ok(());
    }
    numbers.insert(team.team.0, team.number)?;
    Ok(())
}

// Puts the team numbers of teams into the table, the first one of each.
fn note_teams(numbers: &mut BTreeMap<u32, i64>, teams: &[FormedTeam]) -> Result<(), NoMemory>
    ensures { OnOk result (Gains numbers.old (λ q. number_among q teams.now) numbers.new) }
{
    for team in teams {
        note_team(numbers, team)?;
    }
    Ok(())
}

/// Puts the team numbers that a reply gives into the table, for the teams that have none there.
pub(crate) fn note_reply(numbers: &mut BTreeMap<u32, i64>, reply: &Reply) -> Result<(), NoMemory>
    ensures { OnOk result (Gains numbers.old (λ q. number_in_reply q reply.now) numbers.new) }
{
    match reply {
        Reply::Left { teams, .. } => note_teams(numbers, teams.as_slice()),
        _ => Ok(()),
    }
}

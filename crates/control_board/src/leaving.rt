//! The departure from a round of a team.

ghost use Rattle.std.specs.Prelude.{◌≡◌, ◌+◌, ◌-◌, ◌<◌, ◌≤◌, ◌^◌, ℕ, Bool, List, Some, IsTrue, IfOk, ◌&&◌, nat_le, nat_eq, length, slice_get, slice_index_or};
ghost use Rattle.std.specs.Option.{is_some};
ghost use Rattle.caf_events.specs.declared.ask.Ask.TheVariants as asks;
ghost use Rattle.caf_events.specs.declared.event.Entry.{Entry};
ghost use Rattle.object_rules.specs.Happenings.{Happening};
ghost use Rattle.object_rules.specs.TeamRounds.{arrivals};
ghost use Rattle.team_round.specs.TeamStates.{TeamState, TellsAll};
ghost use Rattle.object_rules.specs.BoardRules.{is_image, has_joined as joined_by_rules, board_ready, board_reply};
ghost use Rattle.object_rules.specs.BoardTeams.{teams_after, members_at, closing, made_teams};
ghost use Rattle.team_tree.specs.KnownTeams.{team_of};
ghost use Rattle.control_board.specs.Boards.{IsBoard, IsKept, AreRounds, Comes, class_of, rounds_in, is_listed};

use crate::forming::is_bad;
use crate::parts::{Parts, has_team};
use crate::planning::is_form_round;
use caf_base::listing::Listing;
use caf_base::place::{ImageNo, TeamNo};
use caf_base::refusal::NoMemory;
use caf_events::reply::{FormedTeam, Reply};
use std::alloc::Global;
use team_round::rounds::Rounds;

// Whether the image has joined this round of the team.
fn has_come(rounds: &Rounds, image: ImageNo, team: TeamNo, round: u64) -> bool
    requires team { (0 < team.0) × (team.0 ≤ length rounds.now.teams) }
    requires image { (x : TeamState) → slice_get rounds.now.teams (team.0 - 1) ≡ Some x → (0 < image.0) × (image.0 ≤ length x.joined) }
    ensures { (n : ℕ) (hs : List Happening) → TellsAll n rounds.now hs → result ≡ (nat_le 1 round && nat_le round (arrivals team.0 image.0 hs)) }
{
    round >= 1 && round <= rounds.joined(team, image)
}

// Whether the image has joined this round of the team: then it is a member, which isn't looked up again.
pub(crate) fn has_joined(
    parts: &Parts,
    rounds: &Rounds,
    image: ImageNo,
    team: TeamNo,
    round: u64,
) -> bool
    requires rounds { (c : Bool) × AreRounds rounds.now c parts.now }
    requires image { IsTrue (is_image parts.now.images image.0) }
    ensures { (n : ℕ) (h : List Entry) (c : Bool) → IsBoard n h parts.now → rounds.now ≡ rounds_in parts.now c → result ≡ joined_by_rules (class_of c) n h image.0 team.0 round }
{
    has_team(&parts.teams, team) && has_come(rounds, image, team, round)
}

// Whether the image can leave the round of these rounds: it has joined it, and the round has closed.
pub(crate) fn can_depart(
    parts: &Parts,
    rounds: &Rounds,
    image: ImageNo,
    team: TeamNo,
    round: u64,
) -> bool
    requires rounds { (c : Bool) × AreRounds rounds.now c parts.now }
    requires image { IsTrue (is_image parts.now.images image.0) }
    ensures { (n : ℕ) (h : List Entry) (c : Bool) → IsBoard n h parts.now → rounds.now ≡ rounds_in parts.now c
        → result ≡ (joined_by_rules (class_of c) n h image.0 team.0 round && is_some (closing (class_of c) team.0 round (members_at (teams_after n h) team.0) h)) }
{
    has_joined(parts, rounds, image, team, round) && rounds.closed(team, round)
}

// Whether this round of this team made the team of a number.
fn is_made_by(parts: &Parts, made: usize, team: TeamNo, round: u64) -> bool
    requires teams { made < length parts.now.teams.teams }
    requires births { (length parts.now.births.items ≡ length parts.now.teams.teams) × (length parts.now.teams.teams < 2 ^ 32) }
    ensures { result ≡ (nat_eq (team_of parts.now.teams.teams (made + 1)).parent team.0 && nat_eq (slice_index_or parts.now.births.items made 0) round) }
{
    parts.teams.is_child(TeamNo(made as u32 + 1), team) && parts.births[made] == round
}

// The teams that a round of a team made.
fn teams_by(
    alloc: Global,
    parts: &Parts,
    team: TeamNo,
    round: u64,
) -> Result<Listing<FormedTeam>, NoMemory>
    requires { IsKept parts.now }
    ensures { IfOk result (λ l. (n : ℕ) (h : List Entry) → IsBoard n h parts.now → l ≡ made_teams team.0 round 1 (teams_after n h)) }
{
    let mut teams = Listing::new(alloc);
    for made in 0..parts.teams.len() {
        if is_made_by(parts, made, team, round) {
            teams.push(parts.teams.told(alloc, TeamNo(made as u32 + 1))?)?;
        }
    }
    Ok(teams)
}

// The teams that a round of a team made: none but where it is one of FORM TEAM, so that other departures don't go over
// the teams.
fn teams_made(
    alloc: Global,
    parts: &Parts,
    team: TeamNo,
    round: u64,
) -> Result<Listing<FormedTeam>, NoMemory>
    requires kept { IsKept parts.now }
    requires team { (0 < team.0) × (team.0 ≤ length parts.now.control.teams) }
    requires round { 0 < round }
    ensures { IfOk result (λ l. (n : ℕ) (h : List Entry) → IsBoard n h parts.now → l ≡ made_teams team.0 round 1 (teams_after n h)) }
{
    if is_form_round(parts, team, round) {
        teams_by(alloc, parts, team, round)
    } else {
        Ok(Listing::new(alloc))
    }
}

// Whether the round closed with a bad argument: one that isn't of FORM TEAM didn't, so that other departures don't go
// over those that did.
fn has_bad_argument(parts: &Parts, team: TeamNo, round: u64) -> bool
    requires kept { IsKept parts.now }
    requires team { (0 < team.0) × (team.0 ≤ length parts.now.control.teams) }
    requires round { 0 < round }
    ensures { result ≡ is_listed parts.now.bad.items team.0 round }
{
    is_form_round(parts, team, round) && is_bad(&parts.bad, team, round)
}

// The reply to a departure.
pub(crate) fn left(
    alloc: Global,
    parts: &Parts,
    image: ImageNo,
    team: TeamNo,
    round: u64,
) -> Result<Reply, NoMemory>
    requires { Comes parts.now image.0 (asks.Leave team round) }
    ensures { IfOk result (λ r. (n : ℕ) (h : List Entry) → IsBoard n h parts.now → IsTrue (board_ready n h image.0 (asks.Leave team round))
        → r ≡ board_reply n h image.0 (asks.Leave team round)) }
{
    let teams = teams_made(alloc, parts, team, round)?;
    Ok(Reply::Left {
        status: parts
            .control
            .result(team, round, has_bad_argument(parts, team, round)),
        teams,
    })
}

//! The teams that an image knows.

ghost use Rattle.std.specs.Prelude.{◌≡◌, ◌*◌, ◌<◌, ◌^◌, ◌∷◌, length, OnOk};
ghost use Rattle.std.specs.Option.{option_map};
ghost use Rattle.caf_base.specs.Arithmetic.{natural};
ghost use Rattle.image_acts.specs.Replies.{fitting};
ghost use Rattle.image_acts.specs.Statuses.{most_teams};
ghost use Rattle.image_acts.specs.Teams.{behind_first, current_team, member_at, members};
ghost use Rattle.image_state.specs.Acting.{with_core};
ghost use Rattle.image_state.specs.Kept.{table_of};
ghost use Rattle.team_tables.specs.Tables.{HasRoom, newly_known, team_with, with_noted, with_teams};

use crate::state::ImageState;
use caf_base::refusal::NoMemory;
use caf_events::reply::FormedTeam;
use team_tables::named::team_of;
use team_tables::teams::Teams;

impl ImageState {
    /// The teams that the image knows.
    pub fn teams(&self) -> &Teams
        ensures { result.now ≡ table_of self.now }
    {
        &self.teams
    }

    /// Makes a team the current one.
    pub fn enter_team(&mut self, team: u64)
        requires small { team < 2 ^ 63 }
        requires place { length self.old.core.teams < most_teams }
        ensures { self.new ≡ with_core self.old (record self.old.core { teams = team ∷ self.old.core.teams }) }
    {
        self.teams.make_current(team);
    }

    /// Goes back to the team before the current one.
    pub fn go_back(&mut self)
        ensures { self.new ≡ with_core self.old (record self.old.core { teams = behind_first self.old.core.teams }) }
    {
        self.teams.leave_team();
    }

    /// Notes the teams that were formed by this round of the current team, and says which one has this image.
    pub fn note_formed(&mut self, round: u64) -> Option<u32>
        ensures own { result ≡ option_map (λ k. k.team) (team_with self.old.core.me (newly_known round (table_of self.old))) }
        ensures noted { self.new ≡ with_core self.old (with_teams (with_noted round (table_of self.old)) self.old.core) }
    {
        self.teams.note_teams(round)
    }

    /// Makes room for the teams that the reply to a `leave` brings. After want of memory all is as before.
    pub fn reserve_teams(&mut self) -> Result<(), NoMemory>
        ensures room { OnOk result (HasRoom (table_of self.new)) }
        ensures same { self.new ≡ record self.old { team_room = self.new.team_room } }
    {
        self.teams.reserve()
    }

    /// Takes over the teams that a round formed, as far as they fit.
    pub fn hear_formed(&mut self, teams: &[FormedTeam])
        requires { HasRoom (table_of self.old) }
        ensures { self.new ≡ with_core self.old (record self.old.core { formed = fitting (2 * self.old.core.images) teams.now }) }
    {
        self.teams.hear_formed(teams);
    }

    /// The member of the current team with an index, 0 where there is none.
    pub fn member(&self, index: i64) -> u32
        ensures { result ≡ member_at (members self.now.core (current_team self.now.core)) (natural index) }
    {
        member_at(self.teams.current_members(), team_of(index))
    }
}

/// The member of a team with an index, 0 where there is none.
fn member_at(members: &[u32], index: u64) -> u32
    ensures { result ≡ member_at members.now index }
{
    if index == 0 {
        return 0;
    }
    match members.get(index as usize - 1) {
        Some(member) => *member,
        None => 0,
    }
}

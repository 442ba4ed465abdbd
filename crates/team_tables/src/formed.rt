//! The teams that a round formed, as its reply has them.

ghost use Rattle.std.specs.Prelude.{◌≡◌, ◌+◌, ◌^◌, ◌<◌, ◌≤◌, ◌++◌, ◌∷◌, [], length, map, take, vec_capacity};
ghost use Rattle.image_acts.specs.Replies.{fitting};
ghost use Rattle.team_tables.specs.Entries.{ArePacked, entry_of, formed_in, weight_of};

use crate::entries::Entry;
use caf_base::place::ImageNo;
use caf_events::reply::FormedTeam;

/// How many teams fit into room for so many teams and members together.
pub(crate) fn fitting_count(teams: &[FormedTeam], room: u64) -> usize
    ensures fitting { take result teams.now ≡ fitting room teams.now }
    ensures within { result ≤ length teams.now }
{
    let mut count = 0;
    let mut spare = room;
    let mut left = teams;
    while let Some((team, rest)) = left.split_first() {
        let size = team.members.len() as u64;
        if size >= spare {
            return count;
        }
        spare -= size + 1;
        count += 1;
        left = rest;
    }
    count
}

/// Puts members behind the others. It takes no memory.
fn add_members(members: &mut Vec<u32>, images: &[ImageNo])
    requires { length members.old.items + length images.now ≤ vec_capacity members.old }
    ensures items { members.new.items ≡ members.old.items ++ map (λ i. i.0) images.now }
    ensures capacity { vec_capacity members.new ≡ vec_capacity members.old }
{
    for i in 0..images.len() {
        members.push_reserved(images[i].0);
    }
}

/// Puts a team behind the others. It takes no memory.
fn add_team(entries: &mut Vec<Entry>, members: &mut Vec<u32>, team: &FormedTeam)
    requires slot { length entries.old.items < vec_capacity entries.old }
    requires room { length members.old.items + length team.now.members ≤ vec_capacity members.old }
    ensures entries { entries.new.items ≡ entries.old.items ++ entry_of team.now (length members.old.items) ∷ [] }
    ensures members { members.new.items ≡ members.old.items ++ map (λ i. i.0) team.now.members }
    ensures slots { vec_capacity entries.new ≡ vec_capacity entries.old }
    ensures rooms { vec_capacity members.new ≡ vec_capacity members.old }
{
    let start = members.len();
    add_members(members, team.members.as_slice());
    entries.push_reserved(Entry {
        team: team.team.0,
        parent: 0,
        round: 0,
        number: team.number,
        start,
        end: members.len(),
    });
}

/// Puts teams into an empty row, the last one first, and their members behind those of others. It takes no memory.
pub(crate) fn add_teams(entries: &mut Vec<Entry>, members: &mut Vec<u32>, teams: &[FormedTeam])
    requires empty { entries.old.items ≡ [] }
    requires few { weight_of teams.now < 2 ^ 33 }
    requires slots { weight_of teams.now ≤ vec_capacity entries.old }
    requires rooms { length members.old.items + weight_of teams.now ≤ vec_capacity members.old }
    ensures formed { formed_in members.new.items entries.new.items ≡ teams.now }
    ensures packed { ArePacked (length members.old.items) (length members.new.items) entries.new.items }
    ensures kept { take (length members.old.items) members.new.items ≡ members.old.items }
    ensures slots { vec_capacity entries.new ≡ vec_capacity entries.old }
    ensures rooms { vec_capacity members.new ≡ vec_capacity members.old }
{
    let mut left = teams;
    while let Some((team, before)) = left.split_last() {
        add_team(entries, members, team);
        left = before;
    }
}

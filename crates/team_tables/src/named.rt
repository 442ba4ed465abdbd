//! Teams that a program names, and what is asked about them.

ghost use Rattle.std.specs.Prelude.{◌≡◌, ◌^◌, ◌<◌, ℕ, List, pos, length, IfSome};
ghost use Rattle.std.specs.Option.{option_map};
ghost use Rattle.caf_base.specs.Arithmetic.{natural};
ghost use Rattle.image_acts.specs.Teams.{is_in, team_in};
ghost use Rattle.team_tables.specs.Entries.{AreWithin, IsWithin, known_in, team_at};
ghost use Rattle.team_tables.specs.Tables.{current_of, image_count_of_number, index_here, is_child, is_established_here, is_near, is_root, members_here, numbered_here, sibling_of, team_at_level};

use crate::current::{holds, newest_of, older, up_to};
use crate::entries::{Entry, is_in, members_of, newest, newest_sibling};
use crate::teams::Teams;
use array_places::images::index_in;

/// The team that a number of the stack names; one below 0 names none, as 0.
pub fn team_of(number: i64) -> u64
    ensures value { result ≡ natural number }
    ensures small { result < 2 ^ 63 }
{
    if number < 0 { 0 } else { number as u64 }
}

/// The team that was formed beside the current one, with a team number.
fn numbered(known: &[Entry], current: u64, number: &i64) -> Option<Entry>
    ensures found { (ms : List ℕ) → option_map (team_at ms) result ≡ sibling_of (team_in current (known_in ms known.now)) number.now (known_in ms known.now) }
    ensures within { (n : ℕ) → AreWithin n known.now → IfSome result (IsWithin n) }
{
    match newest(known, current) {
        None => None,
        Some(of) => newest_sibling(known, &of, number),
    }
}

impl Teams {
    /// Whether a team is the current one or an ancestor of it.
    pub fn is_current(&self, team: u64) -> bool
        ensures { result ≡ is_in team self.now.current }
    {
        holds(&self.current, team)
    }

    /// Whether a team was formed by the current team, and this image is in it.
    pub fn is_child(&self, team: u64) -> bool
        ensures { result ≡ is_child self.now (team_in team self.now.known) }
    {
        match newest(&self.known, team) {
            None => false,
            Some(entry) => {
                entry.parent == newest_of(&self.current)
                    && is_in(members_of(&self.members, &entry), self.me)
            }
        }
    }

    /// Whether a team is a child of the current team with this image in it, or the current team or an ancestor of it.
    pub fn is_near(&self, team: u64) -> bool
        ensures { result ≡ is_near self.now team }
    {
        self.is_current(team) || self.is_child(team)
    }

    /// Whether a coarray that was allocated in one team is established in another one.
    pub fn is_established(&self, made: u64, team: u64) -> bool
        ensures { result ≡ is_established_here self.now made team }
    {
        let within = up_to(&self.current, team);
        if within.is_empty() {
            holds(older(&self.current), made)
        } else {
            holds(within, made)
        }
    }

    /// The index of this image in a team, 0 where it isn't in it.
    pub fn own_index(&self, team: u64) -> i64
        ensures { result ≡ pos (index_here self.now team) }
    {
        index_in(self.members(team), self.me) as i64
    }

    /// How many images a team has.
    pub fn image_count(&self, team: u64) -> i64
        ensures { result ≡ pos (length (members_here self.now team)) }
    {
        self.members(team).len() as i64
    }

    /// The team number of a team that the image knows: -1 for the initial one.
    pub fn team_number(&self, team: u64) -> Option<i64>
        ensures { result ≡ option_map (λ k. k.number) (team_in team self.now.known) }
    {
        match newest(&self.known, team) {
            None => None,
            Some(entry) => Some(entry.number),
        }
    }

    /// The team that was formed beside the current one, with a team number.
    pub fn sibling_team(&self, number: i64) -> Option<i64>
        ensures { result ≡ option_map (λ k. pos k.team) (numbered_here self.now number) }
    {
        match numbered(&self.known, newest_of(&self.current), &number) {
            None => None,
            Some(entry) => Some(i64::from(entry.team)),
        }
    }

    /// How many images the team with a team number has, as for `sibling_team`; all of them by -1.
    pub fn image_count_of_number(&self, number: i64) -> Option<i64>
        ensures { result ≡ option_map (λ n. pos n) (image_count_of_number self.now number) }
    {
        if number == -1 {
            return Some(i64::from(self.images));
        }
        match numbered(&self.known, newest_of(&self.current), &number) {
            None => None,
            Some(entry) => Some(members_of(&self.members, &entry).len() as i64),
        }
    }

    /// The team of a level: 1 for the initial team, 2 for the parent, 3 for the current team.
    pub fn get_team(&self, level: i64) -> Option<i64>
        ensures { result ≡ option_map (λ t. pos t) (team_at_level self.now level) }
    {
        match level {
            1 => Some(1),
            2 => Some(newest_of(older(&self.current)) as i64),
            3 => Some(self.this_team()),
            _ => None,
        }
    }

    /// Whether the result of a collective comes to this image: by the root's index in the current team, 0 for all
    /// images.
    pub fn is_root(&self, index: i64) -> bool
        ensures { result ≡ is_root self.now index }
    {
        index == 0 || index == self.own_index(newest_of(&self.current))
    }
}

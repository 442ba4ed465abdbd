//! The teams that one image knows, and which of them are current ones.

ghost use Rattle.std.specs.Prelude.{◌≡◌, ◌+◌, ◌*◌, ◌<◌, ◌≤◌, ◌^◌, ◌∷◌, [], pos, length, nat_lt, vec_capacity, IfOk, OnOk};
ghost use Rattle.std.specs.Option.{option_map};
ghost use Rattle.image_acts.specs.Statuses.{most_teams};
ghost use Rattle.image_acts.specs.Teams.{behind_first};
ghost use Rattle.image_acts.specs.Replies.{fitting};
ghost use Rattle.team_tables.specs.Entries.{first_entry};
ghost use Rattle.team_tables.specs.Tables.{HasRoom, current_of, first_table, images_from, members_here, newly_known, team_with, with_noted};

use crate::current::newest_of;
use crate::entries::{Entry, members_of, newest, newest_with, note};
use crate::formed::{add_teams, fitting_count};
use caf_base::place::ImageNo;
use caf_base::refusal::NoMemory;
use caf_events::reply::FormedTeam;
use std::alloc::Global;
use std::marker::Model;

/// The most current teams.
const MOST_TEAMS: usize = 32_768;

/// The teams that one image knows: the current ones, the initial team and those that FORM TEAM made, and the teams of
/// the last reply of `leave`, until they are noted.
#[derive(Drop)]
pub struct Teams {
    pub(crate) current: Vec<u64>,
    pub(crate) known: Vec<Entry>,
    formed: Vec<Entry>,
    pub(crate) members: Vec<u32>,
    placed: usize,
    pub(crate) me: u32,
    pub(crate) images: u32,
}

impl Model for Teams {
    ghost use Rattle.std.specs.Prelude.{reverse, vec_capacity};
    ghost use Rattle.team_tables.specs.Tables.{Table};

    ghost Value = { Table };

    ghost use Rattle.team_tables.specs.Entries.{AreKept, formed_in, known_in};

    ghost view = { λ s. record {
      current = reverse s.current.items;
      known = known_in s.members.items s.known.items;
      formed = formed_in s.members.items s.formed.items;
      me = s.me;
      images = s.images;
      room = record { teams = vec_capacity s.known; members = vec_capacity s.members };
    } };

    ghost invariant = { λ s. AreKept s.current.items s.known.items s.formed.items s.members.items s.placed s.images (vec_capacity s.current) (vec_capacity s.known) (vec_capacity s.formed) };
}

impl Teams {
    /// What image `me` of so many knows at the start: the initial team.
    pub fn new(alloc: Global, me: ImageNo, images: u32) -> Result<Teams, NoMemory>
        ensures { IfOk result (λ t. t ≡ first_table me.0 images t.room) }
    {
        let current = first_current(alloc)?;
        let known = first_known(alloc, images)?;
        let formed = Vec::with_capacity(alloc, 2 * images as usize)?;
        let members = all_images(alloc, images)?;
        Ok(Teams {
            current,
            known,
            formed,
            members,
            placed: images as usize,
            me: me.0,
            images,
        })
    }

    /// The number of this image.
    pub fn me(&self) -> u32
        ensures { result ≡ self.now.me }
    {
        self.me
    }

    /// The current team, the initial one where none is left.
    pub fn current(&self) -> u64
        ensures value { result ≡ current_of self.now }
        ensures small { result < 2 ^ 63 }
    {
        newest_of(&self.current)
    }

    /// The current team as a number of the stack.
    pub fn this_team(&self) -> i64
        ensures { result ≡ pos (current_of self.now) }
    {
        self.current() as i64
    }

    /// The members of a team in index order; none where the image doesn't know it.
    pub fn members(&self, team: u64) -> &[u32]
        ensures value { result.now ≡ members_here self.now team }
        ensures few { length result.now < 2 ^ 33 }
    {
        match newest(&self.known, team) {
            None => &[],
            Some(entry) => members_of(&self.members, &entry),
        }
    }

    /// The members of the current team.
    pub fn current_members(&self) -> &[u32]
        ensures value { result.now ≡ members_here self.now (current_of self.now) }
        ensures few { length result.now < 2 ^ 33 }
    {
        self.members(self.current())
    }

    /// How many images the current team has.
    pub fn current_size(&self) -> usize
        ensures value { result ≡ length (members_here self.now (current_of self.now)) }
        ensures few { result < 2 ^ 33 }
    {
        self.current_members().len()
    }

    /// Whether there is a place for one current team more.
    pub fn has_place(&self) -> bool
        ensures { result ≡ nat_lt (length self.now.current) most_teams }
    {
        self.current.len() < MOST_TEAMS
    }

    /// Makes a team the current one. It takes no memory.
    pub fn make_current(&mut self, team: u64)
        requires small { team < 2 ^ 63 }
        requires place { length self.old.current < most_teams }
        ensures { self.new ≡ record self.old { current = team ∷ self.old.current } }
    {
        self.current.push_reserved(team);
    }

    /// Goes back to the team before the current one.
    pub fn leave_team(&mut self)
        ensures { self.new ≡ record self.old { current = behind_first self.old.current } }
    {
        let _ = self.current.pop();
    }

    /// Makes room for the teams that the reply to a `leave` brings, and for noting them. After want of memory the teams
    /// are as before.
    pub fn reserve(&mut self) -> Result<(), NoMemory>
        ensures room { OnOk result (HasRoom self.new) }
        ensures same { self.new ≡ record self.old { room = self.new.room } }
    {
        let more = 2 * self.images as usize;
        self.known.reserve(more)?;
        self.members.reserve(more)?;
        Ok(())
    }

    /// Takes over the teams that a round formed, in place of those that weren't noted, as far as they fit. It takes no
    /// memory.
    pub fn hear_formed(&mut self, teams: &[FormedTeam])
        requires { HasRoom self.old }
        ensures { self.new ≡ record self.old { formed = fitting (2 * self.old.images) teams.now } }
    {
        self.formed.clear();
        self.members.truncate(self.placed);
        let count = fitting_count(teams, 2 * u64::from(self.images));
        add_teams(&mut self.formed, &mut self.members, &teams[..count]);
    }

    /// Notes the teams that were formed, by this round of the current team, and says which one has this image. It takes
    /// no memory.
    pub fn note_teams(&mut self, round: u64) -> Option<u32>
        ensures own { result ≡ option_map (λ k. k.team) (team_with self.old.me (newly_known round self.old)) }
        ensures noted { self.new ≡ with_noted round self.old }
    {
        let parent = newest_of(&self.current);
        let own = newest_with(&self.formed, &self.members, self.me);
        note(&mut self.known, &self.formed, parent, round);
        self.formed.clear();
        self.placed = self.members.len();
        own
    }
}

/// Room for all current teams, with the initial one in it.
fn first_current(alloc: Global) -> Result<Vec<u64>, NoMemory>
    ensures { IfOk result (λ v. (v.items ≡ 1 ∷ []) × (32768 ≤ vec_capacity v)) }
{
    let mut current = Vec::with_capacity(alloc, MOST_TEAMS)?;
    current.push_reserved(1);
    Ok(current)
}

/// A row with the initial team in it.
fn first_known(alloc: Global, images: u32) -> Result<Vec<Entry>, NoMemory>
    ensures { IfOk result (λ v. (v.items ≡ first_entry images ∷ []) × (1 ≤ vec_capacity v)) }
{
    let mut known = Vec::with_capacity(alloc, 1)?;
    known.push_reserved(Entry {
        team: 1,
        parent: 0,
        round: 0,
        number: -1,
        start: 0,
        end: images as usize,
    });
    Ok(known)
}

/// The images from 1 to n.
#[tactic(auto, using(crate::proofs::KeptLaws::images_more))]
fn all_images(alloc: Global, n: u32) -> Result<Vec<u32>, NoMemory>
    ensures { IfOk result (λ v. v.items ≡ images_from 1 n) }
{
    let mut images = Vec::with_capacity(alloc, n as usize)?;
    for i in 0..n {
        images.push_reserved(i + 1);
    }
    Ok(images)
}

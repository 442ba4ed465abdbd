//! The rounds of all teams of a run.

ghost use Rattle.std.specs.Prelude.{◌≡◌, ◌+◌, ◌-◌, ◌<◌, ◌≤◌, ◌^◌, ℕ, List, [], ◌∷◌, ◌++◌, Some, None, true, length, slice_get, IfOk, OnOk, MatchOption, vec_len, vec_capacity};
ghost use Rattle.std.specs.Option.{is_some};
ghost use Rattle.std.specs.Global.{Vec};
ghost use Rattle.caf_base.specs.declared.place.ImageNo.{ImageNo};
ghost use Rattle.caf_events.specs.declared.round.RoundKind.{RoundKind};
ghost use Rattle.object_rules.specs.Happenings.{Happening, arrives, numbers_of};
ghost use Rattle.object_rules.specs.Kinds.{same_kind as same_kinds};
ghost use Rattle.object_rules.specs.TeamRounds.{arrivals, opening_of, at_close, missed_by, result_of};
ghost use Rattle.failure_status.specs.Endings.{AreWithin, end_of, ended_with};
ghost use Rattle.team_round.specs.TeamStates.{TeamState, CanArrive, CanEnd, AreEnded, told_arrival, happened_with, TellsAll, CanExpect, CanClose, IsWith, closing_at, kind_told, closed_at, fresh_team, images_to, members_in, status_told, AreZeros};

use crate::round::Arrival;
use crate::rounds_of_team::TeamRounds;
use caf_base::place::{ImageNo, TeamNo};
use caf_base::refusal::NoMemory;
use caf_base::status::STAT_BAD_ARGUMENT;
use caf_events::round::RoundKind;
use failure_status::endings::Endings;
use std::alloc::Global;
use std::marker::Model;

/// The rounds of the teams of a run. In a contract it is their state.
#[derive(Drop)]
pub struct Rounds {
    images: u32,
    endings: Endings,
    teams: Vec<TeamRounds>,
    spare: Vec<Vec<u64>>,
}

impl Model for Rounds {
    ghost use Rattle.std.specs.Prelude.{◌-◌, length};
    ghost use Rattle.std.specs.Vec.{vec_capacity, vec_len};
    ghost use Rattle.team_round.specs.TeamStates.{RoundsState, AreZeros};

    ghost Value = { RoundsState };

    ghost view = { λ r. record {
      images = r.images;
      ended = r.endings;
      teams = r.teams.items;
      room = vec_capacity r.teams - vec_len r.teams;
      spare = length r.spare.items;
    } };

    ghost invariant = { λ r. AreZeros r.images r.spare.items };
}

// An image has ended: in each team the rounds that waited for it close.
fn end_all(teams: &mut Vec<TeamRounds>, endings: &Endings, image: ImageNo)
    requires { (k : ℕ) (x : TeamState) → slice_get teams.old.items k ≡ Some x → CanEnd endings.now x image.0 }
    ensures ended { AreEnded image.0 endings.now (length teams.old.items) teams.old.items teams.new.items }
    ensures len { vec_len teams.new ≡ vec_len teams.old }
    ensures capacity { vec_capacity teams.new ≡ vec_capacity teams.old }
{
    for k in 0..teams.len() {
        teams[k].ended(endings, image);
    }
}

// Gives the next teams their members. It takes no memory.
fn add_each(rounds: &mut Rounds, members: Vec<Vec<ImageNo>>)
    requires room { length members.items ≤ rounds.old.room }
    requires spare { length members.items ≤ rounds.old.spare }
    requires members { (k : ℕ) (x : Vec ImageNo) → slice_get members.items k ≡ Some x → AreWithin rounds.old.images x.items }
    ensures { IsWith rounds.old members.items rounds.new }
{
    for one in members {
        rounds.add_team(one);
    }
}

// The images 1 to n.
fn all_images(alloc: Global, n: u32) -> Result<Vec<ImageNo>, NoMemory>
    ensures { IfOk result (λ v. v.items ≡ images_to n) }
{
    let mut images = Vec::new(alloc);
    for k in 0..n {
        images.push(ImageNo(k + 1))?;
    }
    Ok(images)
}

// Puts so many vectors with a count of 0 for each image behind the others.
fn add_spare(
    alloc: Global,
    spare: &mut Vec<Vec<u64>>,
    images: u32,
    more: usize,
) -> Result<(), NoMemory>
    requires { AreZeros images spare.old.items }
    ensures zeros { AreZeros images spare.new.items }
    ensures more { OnOk result (more ≤ length spare.new.items) }
{
    for _ in 0..more {
        spare.push(Vec::from_elem(alloc, 0, images as usize)?)?;
    }
    Ok(())
}

// The status of a closed round, where that of a bad argument may be due.
fn with_bad(status: Option<i32>, bad: bool) -> Option<i32>
    ensures { result ≡ status_told status bad }
{
    match status {
        Some(0) if bad => Some(STAT_BAD_ARGUMENT),
        _ => status,
    }
}

impl Rounds {
    /// Team 1 with the images 1 to n, in which nobody has arrived.
    pub fn new(alloc: Global, n: u32) -> Result<Rounds, NoMemory>
        ensures images { IfOk result (λ r. r.images ≡ n) }
        ensures teams { IfOk result (λ r. r.teams ≡ fresh_team n (images_to n) ∷ []) }
        ensures told { IfOk result (λ r. TellsAll n r []) }
    {
        let members = all_images(alloc, n)?;
        let joined = Vec::from_elem(alloc, 0, n as usize)?;
        let mut teams = Vec::new(alloc);
        teams.push(TeamRounds::new(alloc, members, joined))?;
        Ok(Rounds {
            images: n,
            endings: Endings::new(alloc, n)?,
            teams,
            spare: Vec::new(alloc),
        })
    }

    /// Makes room for one arrival on the team and for so many more teams, in numbers too.
    pub fn reserve(&mut self, alloc: Global, t: TeamNo, more: usize) -> Result<(), NoMemory>
        requires { (0 < t.0) × (t.0 ≤ length self.old.teams) }
        ensures images { self.new.images ≡ self.old.images }
        ensures as_many { length self.new.teams ≡ length self.old.teams }
        ensures members { members_in self.new.teams ≡ members_in self.old.teams }
        ensures told { (n : ℕ) (hs : List Happening) → TellsAll n self.old hs → TellsAll n self.new hs }
        ensures round { OnOk result ((x : TeamState) → slice_get self.new.teams (t.0 - 1) ≡ Some x → 0 < x.room) }
        ensures room { OnOk result (more ≤ self.new.room) }
        ensures spare { OnOk result (more ≤ self.new.spare) }
        ensures numbers { OnOk result (length self.new.teams + more < 2 ^ 32) }
    {
        match self.teams.len().checked_add(more) {
            Some(all) if all <= 4_294_967_295 => {}
            _ => return Err(NoMemory),
        }
        self.teams.reserve(more)?;
        self.teams[(t.0 - 1) as usize].reserve()?;
        add_spare(alloc, &mut self.spare, self.images, more)?;
        Ok(())
    }

    /// Gives the next team its members. It takes no memory.
    pub fn add_team(&mut self, members: Vec<ImageNo>)
        requires room { 0 < self.old.room }
        requires spare { 0 < self.old.spare }
        requires members { AreWithin self.old.images members.items }
        ensures images { self.new.images ≡ self.old.images }
        ensures teams { self.new.teams ≡ self.old.teams ++ fresh_team self.old.images members.items ∷ [] }
        ensures room { self.new.room + 1 ≡ self.old.room }
        ensures spare { self.new.spare + 1 ≡ self.old.spare }
        ensures ended { self.new.ended ≡ self.old.ended }
    {
        let alloc = *self.teams.allocator();
        match self.spare.pop() {
            Some(joined) => self
                .teams
                .push_reserved(TeamRounds::new(alloc, members, joined)),
            None => unreachable!(),
        }
    }

    /// Which images have stopped or failed.
    pub fn endings(&self) -> &Endings
        ensures { result.now ≡ self.now.ended }
    {
        &self.endings
    }

    /// How many rounds of the team the image has joined.
    pub fn joined(&self, t: TeamNo, image: ImageNo) -> u64
        requires team { (0 < t.0) × (t.0 ≤ length self.now.teams) }
        requires image { (x : TeamState) → slice_get self.now.teams (t.0 - 1) ≡ Some x → (0 < image.0) × (image.0 ≤ length x.joined) }
        ensures { (n : ℕ) (hs : List Happening) → TellsAll n self.now hs → result ≡ arrivals t.0 image.0 hs }
    {
        self.teams[(t.0 - 1) as usize].joined(image)
    }

    /// What would come of the arrival of a member of a team by a statement of a kind.
    pub fn expected(&self, t: TeamNo, image: ImageNo, kind: &RoundKind) -> Arrival
        requires team { (0 < t.0) × (t.0 ≤ length self.now.teams) }
        requires state { (x : TeamState) → slice_get self.now.teams (t.0 - 1) ≡ Some x → CanExpect x image.0 }
        ensures { (n : ℕ) (hs : List Happening) → TellsAll n self.now hs
            → result ≡ told_arrival same_kinds kind.now (arrivals t.0 image.0 hs + 1) (opening_of t.0 (arrivals t.0 image.0 hs + 1) hs) }
    {
        self.teams[(t.0 - 1) as usize].expected(image, kind)
    }

    /// The kind of a round of the team that has an arrival.
    pub fn kind(&self, t: TeamNo, round: u64) -> Option<&RoundKind>
        requires team { (0 < t.0) × (t.0 ≤ length self.now.teams) }
        requires round { 0 < round }
        ensures { (n : ℕ) (hs : List Happening) → TellsAll n self.now hs → MatchOption result (kind_told (opening_of t.0 round hs) ≡ None) (λ k. kind_told (opening_of t.0 round hs) ≡ Some k.now) }
    {
        self.teams[(t.0 - 1) as usize].kind(round)
    }

    /// Whether the round of the team has closed.
    pub fn closed(&self, t: TeamNo, round: u64) -> bool
        requires team { (0 < t.0) × (t.0 ≤ length self.now.teams) }
        requires round { 0 < round }
        ensures { (n : ℕ) (hs : List Happening) (x : TeamState) → TellsAll n self.now hs → slice_get self.now.teams (t.0 - 1) ≡ Some x
            → result ≡ is_some (at_close (numbers_of x.members) t.0 round hs) }
    {
        self.teams[(t.0 - 1) as usize].status(round).is_some()
    }

    /// The status of a round that has closed, where `bad` says that an argument is bad.
    pub fn result(&self, t: TeamNo, round: u64, bad: bool) -> i32
        requires team { (0 < t.0) × (t.0 ≤ length self.now.teams) }
        requires round { 0 < round }
        requires closed { (x : TeamState) → slice_get self.now.teams (t.0 - 1) ≡ Some x → is_some (closed_at x.rounds (round - 1)) ≡ true }
        ensures { (n : ℕ) (hs f : List Happening) (x : TeamState) → TellsAll n self.now hs → slice_get self.now.teams (t.0 - 1) ≡ Some x
            → at_close (numbers_of x.members) t.0 round hs ≡ Some f → result ≡ result_of (missed_by (numbers_of x.members) f) bad }
    {
        match with_bad(self.teams[(t.0 - 1) as usize].status(round), bad) {
            Some(status) => status,
            None => unreachable!(),
        }
    }

    /// The status with which the round of the team after the last one that the image has joined closes by its arrival,
    /// 6000, 6001 or 0 by the members that have ended; None where it doesn't close.
    pub fn closing_by_arrival(&self, t: TeamNo, image: ImageNo) -> Option<i32>
        requires team { (0 < t.0) × (t.0 ≤ length self.now.teams) }
        requires state { (x : TeamState) → slice_get self.now.teams (t.0 - 1) ≡ Some x → CanClose self.now.ended x image.0 }
        ensures { (n : ℕ) (kind : RoundKind) (line : ℕ) (hs : List Happening) (x : TeamState) → TellsAll n self.now hs → slice_get self.now.teams (t.0 - 1) ≡ Some x
            → result ≡ closing_at (numbers_of x.members) t.0 hs (hs ++ arrives t.0 image.0 kind line ∷ []) (arrivals t.0 image.0 hs + 1) }
    {
        self.teams[(t.0 - 1) as usize].closing_by_arrival(&self.endings, image)
    }

    /// The status with which a round of the team closes when the image fails or stops; None where it doesn't close.
    pub fn closing_by_end(&self, t: TeamNo, round: u64, image: ImageNo, failed: bool) -> Option<i32>
        requires team { (0 < t.0) × (t.0 ≤ length self.now.teams) }
        requires state { (x : TeamState) → slice_get self.now.teams (t.0 - 1) ≡ Some x → CanClose self.now.ended x image.0 }
        ensures { (n : ℕ) (hs : List Happening) (x : TeamState) → TellsAll n self.now hs → slice_get self.now.teams (t.0 - 1) ≡ Some x
            → result ≡ closing_at (numbers_of x.members) t.0 hs (hs ++ end_of image.0 failed ∷ []) round }
    {
        self.teams[(t.0 - 1) as usize].closing_by_end(&self.endings, round, image, failed)
    }

    /// How many rounds of the team have an arrival.
    pub fn count(&self, t: TeamNo) -> usize
        requires { (0 < t.0) × (t.0 ≤ length self.now.teams) }
        ensures { (x : TeamState) → slice_get self.now.teams (t.0 - 1) ≡ Some x → result ≡ length x.rounds }
    {
        self.teams[(t.0 - 1) as usize].count()
    }

    /// Gives the next teams their members, one after the other. It takes no memory.
    pub fn add_teams(&mut self, members: Vec<Vec<ImageNo>>)
        requires room { length members.items ≤ self.old.room }
        requires spare { length members.items ≤ self.old.spare }
        requires members { (k : ℕ) (x : Vec ImageNo) → slice_get members.items k ≡ Some x → AreWithin self.old.images x.items }
        ensures { IsWith self.old members.items self.new }
    {
        add_each(self, members);
    }

    /// The arrival of a member of a team, by a statement of a kind and at a line. It takes no memory.
    pub fn arrive(&mut self, t: TeamNo, image: ImageNo, kind: RoundKind, line: u32) -> Arrival
        requires team { (0 < t.0) × (t.0 ≤ length self.old.teams) }
        requires state { (x : TeamState) → slice_get self.old.teams (t.0 - 1) ≡ Some x → CanArrive self.old.ended x image.0 }
        ensures arrival { (n : ℕ) (hs : List Happening) → TellsAll n self.old hs
            → result ≡ told_arrival same_kinds kind (arrivals t.0 image.0 hs + 1) (opening_of t.0 (arrivals t.0 image.0 hs + 1) hs) }
        ensures told { (n : ℕ) (hs : List Happening) → TellsAll n self.old hs
            → TellsAll n self.new (happened_with hs t.0 image.0 kind line result) }
        ensures images { self.new.images ≡ self.old.images }
        ensures members { members_in self.new.teams ≡ members_in self.old.teams }
        ensures room { self.new.room ≡ self.old.room }
        ensures spare { self.new.spare ≡ self.old.spare }
    {
        self.teams[(t.0 - 1) as usize].arrive(&self.endings, image, kind, line)
    }

    /// Notes that the image failed or stopped: the rounds that waited for it close. It takes no memory.
    pub fn ended(&mut self, image: ImageNo, failed: bool)
        requires stopped { (0 < image.0) × (image.0 ≤ length self.old.ended.stopped) }
        requires failed { (0 < image.0) × (image.0 ≤ length self.old.ended.failed) }
        requires state { (k : ℕ) (x : TeamState) → slice_get self.old.teams k ≡ Some x → CanEnd (ended_with self.old.ended image.0 failed) x image.0 }
        ensures told { (n : ℕ) (hs : List Happening) → TellsAll n self.old hs → TellsAll n self.new (hs ++ end_of image.0 failed ∷ []) }
        ensures images { self.new.images ≡ self.old.images }
        ensures members { members_in self.new.teams ≡ members_in self.old.teams }
        ensures room { self.new.room ≡ self.old.room }
        ensures spare { self.new.spare ≡ self.old.spare }
    {
        self.endings.note(image, failed);
        end_all(&mut self.teams, &self.endings, image);
    }
}

//! The rounds of one team.

ghost use Rattle.std.specs.Prelude.{◌≡◌, ◌+◌, ◌-◌, ◌<◌, ◌≤◌, ◌^◌, ℕ, Bool, vec_len, vec_capacity, List, [], ◌∷◌, ◌++◌, length, slice_get, Some, None, OnOk, MatchOption};
ghost use Rattle.caf_events.specs.declared.round.RoundKind.{RoundKind};
ghost use Rattle.object_rules.specs.Happenings.{Happening, arrives, numbers_of};
ghost use Rattle.object_rules.specs.Kinds.{same_kind as same_kinds};
ghost use Rattle.object_rules.specs.TeamRounds.{arrivals, opening_of, at_close};
ghost use Rattle.failure_status.specs.Endings.{AreWithin, Ended, end_of, TellsEnded};
ghost use Rattle.team_round.specs.TeamStates.{clash_of, closed_at, opened_at, joined_by, told_arrival, happened_with, status_at, CanExpect, CanClose, closing_at, kind_told, kind_kept, Tells, IsTold};

use crate::round::{Arrival, Round, same_kind};
use crate::team::{closes_by_arrival, closes_by_end, try_close, try_from};
use caf_base::place::ImageNo;
use caf_base::refusal::NoMemory;
use caf_events::round::RoundKind;
use failure_status::endings::Endings;
use std::alloc::Global;
use std::marker::Model;

/// The rounds of a team. In a contract it is their state.
#[derive(Drop)]
pub struct TeamRounds {
    members: Vec<ImageNo>,
    joined: Vec<u64>,
    rounds: Vec<Round>,
}

impl Model for TeamRounds {
    ghost use Rattle.std.specs.Prelude.{◌-◌, length};
    ghost use Rattle.std.specs.Vec.{vec_capacity, vec_len};
    ghost use Rattle.failure_status.specs.Endings.{AreWithin};
    ghost use Rattle.team_round.specs.TeamStates.{TeamState};

    ghost Value = { TeamState };

    ghost view = { λ t. record {
      members = t.members.items;
      joined = t.joined.items;
      rounds = t.rounds.items;
      room = vec_capacity t.rounds - vec_len t.rounds;
    } };

    ghost invariant = { λ t. AreWithin (length t.joined.items) t.members.items };
}

// How many rounds the image has joined.
fn joined_rounds(joined: &Vec<u64>, image: ImageNo) -> u64
    requires { (0 < image.0) × (image.0 ≤ length joined.now.items) }
    ensures { result ≡ joined_by joined.now.items image.0 }
{
    joined[(image.0 - 1) as usize]
}

// The status of the round of this number at its close; None where it hasn't closed.
fn status_at_close(rounds: &Vec<Round>, round: u64) -> Option<i32>
    requires { 0 < round }
    ensures { result ≡ closed_at rounds.now.items (round - 1) }
{
    let round = rounds.get((round - 1) as usize)?;
    round.closed
}

// The kind of the round of this number, where it is there.
fn kind_at(rounds: &Vec<Round>, round: u64) -> Option<&RoundKind>
    requires { 0 < round }
    ensures { MatchOption result (kind_kept (slice_get rounds.now.items (round - 1)) ≡ None) (λ k. kind_kept (slice_get rounds.now.items (round - 1)) ≡ Some k.now) }
{
    let round = rounds.get((round - 1) as usize)?;
    Some(&round.kind)
}

// The clash of an arrival with the first one of its round, where that is of another kind.
fn clash_with(rounds: &Vec<Round>, place: usize, kind: &RoundKind) -> Option<Arrival>
    ensures { result ≡ clash_of same_kinds kind.now (slice_get rounds.now.items place) }
{
    let first = rounds.get(place)?;
    if same_kind(&first.kind, kind) {
        None
    } else {
        Some(Arrival::Clash {
            image: first.image,
            line: first.line,
        })
    }
}

// Puts a round that has its first arrival behind the others; one that has an arrival stays. It takes no memory.
fn open_round(rounds: &mut Vec<Round>, place: usize, round: Round)
    requires { vec_len rounds.old < vec_capacity rounds.old }
    ensures { rounds.new.items ≡ opened_at rounds.old.items place round }
{
    if place < rounds.len() {
        drop(round);
    } else {
        rounds.push_reserved(round);
    }
}

impl TeamRounds {
    // A team with these members, in which nobody has arrived, and with a count of 0 for each image. It takes no memory.
    pub(crate) fn new(alloc: Global, members: Vec<ImageNo>, joined: Vec<u64>) -> TeamRounds
        requires { AreWithin (length joined.items) members.items }
        ensures { result ≡ record { members = members.items; joined = joined.items; rounds = []; room = 0 } }
    {
        TeamRounds {
            members,
            joined,
            rounds: Vec::new(alloc),
        }
    }

    // Makes room for one more round.
    pub(crate) fn reserve(&mut self) -> Result<(), NoMemory>
        ensures members { self.new.members ≡ self.old.members }
        ensures joined { self.new.joined ≡ self.old.joined }
        ensures rounds { self.new.rounds ≡ self.old.rounds }
        ensures room { OnOk result (0 < self.new.room) }
    {
        self.rounds.reserve(1)?;
        Ok(())
    }

    /// The arrival of a member, by a statement of a kind and at a line. It takes no memory.
    pub fn arrive(
        &mut self,
        endings: &Endings,
        image: ImageNo,
        kind: RoundKind,
        line: u32,
    ) -> Arrival
        requires image { (0 < image.0) × (image.0 ≤ length self.old.joined) }
        requires few { joined_by self.old.joined image.0 < 2 ^ 62 }
        requires known { joined_by self.old.joined image.0 ≤ length self.old.rounds }
        requires room { 0 < self.old.room }
        requires stopped { length endings.now.stopped ≡ length self.old.joined }
        requires failed { length endings.now.failed ≡ length self.old.joined }
        ensures arrival { (t : ℕ) (hs : List Happening) → IsTold t self.old endings.now hs
            → result ≡ told_arrival same_kinds kind (arrivals t image.0 hs + 1) (opening_of t (arrivals t image.0 hs + 1) hs) }
        ensures told { (t : ℕ) (hs : List Happening) → IsTold t self.old endings.now hs
            → Tells t self.new (happened_with hs t image.0 kind line result) }
        ensures members { self.new.members ≡ self.old.members }
        ensures images { length self.new.joined ≡ length self.old.joined }
    {
        let place = joined_rounds(&self.joined, image) as usize;
        let round = Round {
            kind,
            image,
            line,
            closed: None,
        };
        if let Some(clash) = clash_with(&self.rounds, place, &round.kind) {
            drop(round);
            return clash;
        }
        open_round(&mut self.rounds, place, round);
        self.joined[(image.0 - 1) as usize] = place as u64 + 1;
        try_close(
            &mut self.rounds[place],
            place as u64 + 1,
            &self.members,
            &self.joined,
            endings,
        );
        Arrival::Joined(place as u64 + 1)
    }

    // What would come of the arrival of a member by a statement of a kind.
    pub(crate) fn expected(&self, image: ImageNo, kind: &RoundKind) -> Arrival
        requires { CanExpect self.now image.0 }
        ensures { (t : ℕ) (ended : Ended) (hs : List Happening) → IsTold t self.now ended hs
            → result ≡ told_arrival same_kinds kind.now (arrivals t image.0 hs + 1) (opening_of t (arrivals t image.0 hs + 1) hs) }
    {
        let place = joined_rounds(&self.joined, image) as usize;
        match clash_with(&self.rounds, place, kind) {
            Some(clash) => clash,
            None => Arrival::Joined(place as u64 + 1),
        }
    }

    // The status with which the round after the last one that the image has joined closes by its arrival; None where it
    // doesn't close.
    pub(crate) fn closing_by_arrival(&self, endings: &Endings, image: ImageNo) -> Option<i32>
        requires { CanClose endings.now self.now image.0 }
        ensures { (t : ℕ) (kind : RoundKind) (line : ℕ) (hs : List Happening) → IsTold t self.now endings.now hs
            → result ≡ closing_at (numbers_of self.now.members) t hs (hs ++ arrives t image.0 kind line ∷ []) (arrivals t image.0 hs + 1) }
    {
        let round = joined_rounds(&self.joined, image) + 1;
        if closes_by_arrival(&self.members, &self.joined, endings, image, round) {
            Some(endings.status_among(self.members.as_slice()))
        } else {
            None
        }
    }

    // The status with which a round closes by the end of an image; None where it doesn't close.
    pub(crate) fn closing_by_end(
        &self,
        endings: &Endings,
        round: u64,
        image: ImageNo,
        failed: bool,
    ) -> Option<i32>
        requires { CanClose endings.now self.now image.0 }
        ensures { (t : ℕ) (hs : List Happening) → IsTold t self.now endings.now hs
            → result ≡ closing_at (numbers_of self.now.members) t hs (hs ++ end_of image.0 failed ∷ []) round }
    {
        if closes_by_end(&self.members, &self.joined, endings, image, round) {
            Some(endings.status_among_with(self.members.as_slice(), image, failed))
        } else {
            None
        }
    }

    // How many rounds have an arrival.
    pub(crate) fn count(&self) -> usize
        ensures { result ≡ length self.now.rounds }
    {
        self.rounds.len()
    }

    // How many rounds the image has joined.
    pub(crate) fn joined(&self, image: ImageNo) -> u64
        requires { (0 < image.0) × (image.0 ≤ length self.now.joined) }
        ensures { result ≡ joined_by self.now.joined image.0 }
    {
        joined_rounds(&self.joined, image)
    }

    // The kind of a round that has an arrival.
    pub(crate) fn kind(&self, round: u64) -> Option<&RoundKind>
        requires { 0 < round }
        ensures { (t : ℕ) (hs : List Happening) → Tells t self.now hs → MatchOption result (kind_told (opening_of t round hs) ≡ None) (λ k. kind_told (opening_of t round hs) ≡ Some k.now) }
    {
        kind_at(&self.rounds, round)
    }

    /// The status at the close of a round, 6000, 6001 or 0 by the members that had ended; None where it hasn't closed.
    pub fn status(&self, round: u64) -> Option<i32>
        requires { 0 < round }
        ensures state { result ≡ closed_at self.now.rounds (round - 1) }
        ensures told { (t : ℕ) (hs : List Happening) → Tells t self.now hs
            → result ≡ status_at (numbers_of self.now.members) (at_close (numbers_of self.now.members) t round hs) }
    {
        status_at_close(&self.rounds, round)
    }

    /// An image has stopped or failed: the rounds that waited for it close. It takes no memory.
    pub fn ended(&mut self, endings: &Endings, image: ImageNo)
        requires image { (0 < image.0) × (image.0 ≤ length self.old.joined) }
        requires few { joined_by self.old.joined image.0 ≤ length self.old.rounds }
        requires stopped { length endings.now.stopped ≡ length self.old.joined }
        requires failed { length endings.now.failed ≡ length self.old.joined }
        ensures told { (t : ℕ) (hs : List Happening) (failed : Bool) → Tells t self.old hs
            → TellsEnded (length self.old.joined) endings.now (hs ++ end_of image.0 failed ∷ [])
            → Tells t self.new (hs ++ end_of image.0 failed ∷ []) }
        ensures members { self.new.members ≡ self.old.members }
        ensures images { length self.new.joined ≡ length self.old.joined }
    {
        let from = joined_rounds(&self.joined, image) as usize;
        try_from(&mut self.rounds, from, &self.members, &self.joined, endings);
    }
}

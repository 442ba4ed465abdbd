//! Events, entries and traces.

ghost use Rattle.std.specs.Prelude.{◌≡◌, ◌<◌, ◌^◌, length, sum_by, IfOk, IsTrue, ◌↔◌};
ghost use Rattle.std.specs.Cow.{cow_value};
ghost use Rattle.caf_events.specs.Events.{recorded_words, words_by, counts_words, ask_words, reply_words, EndsRun, EndsBy};

use crate::ask::Ask;
use crate::exchange::{Exchange, Kept};
use crate::reply::{FormedTeam, Reply};
use caf_base::copying::TryCopy;
use caf_base::listing::Listing;
use caf_base::place::ImageNo;
use caf_base::refusal::NoMemory;
use std::alloc::Global;
use std::borrow::Cow;
use std::marker::Model;
use std::mem::size_of;

/// One step of an image: what it asked, the reply, its stamp from 1, and the line of its statement. In a contract it is
/// these four.
#[derive(Drop)]
pub struct Event {
    told: Exchange,
    stamp: u64,
    line: u32,
}

impl Model for Event {
    ghost use Rattle.caf_events.specs.EventParts.{EventParts};

    ghost Value = { EventParts };

    ghost view = { λ e. record { ask = e.told.ask; reply = e.told.reply; stamp = e.stamp; line = e.line } };
}

impl TryCopy for Event {
    fn copy(&self) -> Result<Event, NoMemory> {
        Ok(Event {
            told: self.told.copy()?,
            stamp: self.stamp,
            line: self.line,
        })
    }
}

impl Event {
    /// The event of this ask with its reply. It takes no memory.
    pub fn new(told: Exchange, stamp: u64, line: u32) -> Event
        ensures { result ≡ record { ask = told.ask; reply = told.reply; stamp = stamp; line = line } }
    {
        Event { told, stamp, line }
    }

    /// The ask with its reply.
    pub fn told(&self) -> &Exchange
        ensures { result.now ≡ record { ask = self.now.ask; reply = self.now.reply } }
    {
        &self.told
    }

    /// The reply. It takes no memory.
    pub fn reply(&self, alloc: Global) -> Cow<'_, Reply>
        ensures { cow_value result ≡ self.now.reply }
    {
        self.told.reply(alloc)
    }

    /// The stamp.
    pub fn stamp(&self) -> u64
        ensures { result ≡ self.now.stamp }
    {
        self.stamp
    }

    /// The line of the statement.
    pub fn line(&self) -> u32
        ensures { result ≡ self.now.line }
    {
        self.line
    }

    /// Whether the event ends the run: error termination, a run fault, a limit, or an arrival that clashes.
    pub fn ends_run(&self) -> bool
        ensures { IsTrue result ↔ EndsRun self.now }
    {
        match self.told.kept() {
            Kept::Shared(whole) => ends_by(&whole.ask, &whole.reply),
            _ => false,
        }
    }

    /// The recorded words of the event: none for limits and the steps of a failure, else four and those of its ask and
    /// its reply. Condition: that number is below 2^64.
    pub fn words(&self) -> u64
        requires { recorded_words self.now < 2 ^ 64 }
        ensures { result ≡ recorded_words self.now }
    {
        match self.told.kept() {
            Kept::ReadCell { .. }
            | Kept::WriteCell { .. }
            | Kept::Gathered { .. }
            | Kept::Taken { .. } => 5,
            Kept::Joined { .. }
            | Kept::Departed { .. }
            | Kept::Signaled { .. }
            | Kept::Waited { .. }
            | Kept::Unpaired { .. }
            | Kept::Entered { .. }
            | Kept::Exited { .. } => 4,
            Kept::Shared(whole) => words_of(&whole.ask, &whole.reply),
        }
    }
}

// Whether a step of this ask with this reply ends the run.
pub(crate) fn ends_by(ask: &Ask, reply: &Reply) -> bool
    ensures { IsTrue result ↔ EndsBy ask.now reply.now }
{
    match ask {
        Ask::ErrorStop { .. }
        | Ask::Fault { .. }
        | Ask::LimitStatements { .. }
        | Ask::LimitWords { .. }
        | Ask::LimitStamp { .. } => true,
        Ask::Arrive { .. } | Ask::Gather { .. } => matches!(reply, Reply::Clash { .. }),
        _ => false,
    }
}

// The recorded words of a step of this ask with this reply.
fn words_of(ask: &Ask, reply: &Reply) -> u64
    requires { words_by ask.now reply.now < 2 ^ 64 }
    ensures { result ≡ words_by ask.now reply.now }
{
    if is_recorded(ask) {
        4 + ask_words_of(ask) + reply_words_of(reply)
    } else {
        0
    }
}

// Whether an event of this ask counts recorded words.
fn is_recorded(ask: &Ask) -> bool
    ensures { result ≡ counts_words ask.now }
{
    !matches!(
        ask,
        Ask::Mark { .. }
            | Ask::Free { .. }
            | Ask::Gone
            | Ask::Fail
            | Ask::LimitStatements { .. }
            | Ask::LimitWords { .. }
            | Ask::LimitStamp { .. }
    )
}

// The words of an ask: its cell values, the images that it names, its printed bytes by eights.
fn ask_words_of(ask: &Ask) -> u64
    ensures { result ≡ ask_words ask.now }
{
    match ask {
        Ask::Write { values, .. } | Ask::Gather { values, .. } => values.len() as u64,
        Ask::Atomic { .. } => 2,
        Ask::Pair { images } => images.len() as u64,
        Ask::Print { text } => text.len().div_ceil(8) as u64,
        _ => 0,
    }
}

// The words of a reply: its cell values, its indices, the members of the teams that it names.
fn reply_words_of(reply: &Reply) -> u64
    requires { reply_words reply.now < 2 ^ 64 }
    ensures { result ≡ reply_words reply.now }
{
    match reply {
        Reply::Values { values } | Reply::Taken { values, .. } => values.len() as u64,
        Reply::Old { .. } => 1,
        Reply::Indices { indices } => indices.len() as u64,
        Reply::Left { teams, .. } => members_of(teams.as_slice()),
        _ => 0,
    }
}

// How many members the teams have together.
fn members_of(teams: &[FormedTeam]) -> u64
    requires { sum_by (λ t. length t.members) teams.now < 2 ^ 64 }
    ensures { result ≡ sum_by (λ t. length t.members) teams.now }
{
    let mut members = 0;
    for team in teams {
        members += team.members.len() as u64;
    }
    members
}

/// An event, and the image that made it.
#[derive(Drop)]
pub struct Entry {
    pub image: ImageNo,
    pub event: Event,
}

// An entry is small: each step is kept in its image's events and in the trace.
const _: () = prove!(size_of::<Entry>() <= 56);

impl TryCopy for Entry {
    fn copy(&self) -> Result<Entry, NoMemory> {
        Ok(Entry {
            image: self.image,
            event: self.event.copy()?,
        })
    }
}

/// The events of a run by stamp, then image.
#[derive(Drop)]
pub struct Trace {
    pub entries: Listing<Entry>,
}

impl TryCopy for Trace {
    fn copy(&self) -> Result<Trace, NoMemory> {
        Ok(Trace {
            entries: self.entries.copy_each()?,
        })
    }
}

//! The first partner of an entry in a race.

ghost use Rattle.std.specs.Prelude.{◌≡◌, ◌<◌, ℕ, List, [], ◌∷◌, ◌++◌, length, IfOk, MatchOption, MatchBool};
ghost use Rattle.caf_events.specs.declared.event.Entry.{Entry};
ghost use Rattle.race_watch.specs.ActParts.{as_cell};
ghost use Rattle.race_watch.specs.Recorded.{FitsRun, IsRecorded};
ghost use Rattle.race_watch.specs.Marked.{Touching, TouchesAll, MayNote};
ghost use Rattle.race_search.specs.Known.{Fits, AllFit, AllNoted};
ghost use Rattle.race_search.specs.Failures.{IsWatched};
ghost use Rattle.race_search.specs.Partners.{Apart, RacesWith, LeastShared, NoneBelow, IsPartner};

use crate::shared::shared;
use crate::told::Watcher;
use caf_base::refusal::NoMemory;
use caf_events::ask::Ask;
use caf_events::event::Entry;
use caf_events::reply::Reply;
use race_watch::act::CellName;
use race_watch::recorder::Recorder;
use race_watch::touch::Touch;
use std::alloc::Global;

/// The place of an entry, and the least cell that it shares with another.
#[derive(Clone, Copy)]
pub struct Partner {
    pub at: usize,
    pub cell: CellName,
}

// Whether neither segment precedes the other: that of x after the entries b, which `again` has recorded, and that of e
// after the entries g, which `s` has.
fn is_apart(
    n: u32,
    again: &Recorder,
    b: &[Entry],
    x: &Entry,
    s: &Recorder,
    g: &[Entry],
    e: &Entry,
) -> bool
    requires there { FitsRun n b.now x.now × IsRecorded n b.now again.now }
    requires here { FitsRun n g.now e.now × IsRecorded n g.now s.now }
    requires within { (h : List Entry) × (g.now ≡ b.now ++ x.now ∷ h) }
    requires other { x.now.image.0 ≡ e.now.image.0 → ⊥ }
    ensures { MatchBool result (Apart n b.now x.now g.now e.now) (Apart n b.now x.now g.now e.now → ⊥) }
{
    let is_before = s
        .clock(n, g, e.image)
        .covers(x.image, again.completed(n, b, x.image));
    let is_after = again
        .clock(n, b, x.image)
        .covers(e.image, s.completed(n, g, e.image));
    !is_before && !is_after
}

// The least cell that x shares with e, where the two are a race.
fn race_cell(
    n: u32,
    again: &Recorder,
    b: &[Entry],
    x: &Entry,
    other: &Option<Touch>,
    s: &Recorder,
    g: &[Entry],
    e: &Entry,
    touch: &Touch,
) -> Option<CellName>
    requires there { FitsRun n b.now x.now × IsRecorded n b.now again.now }
    requires here { FitsRun n g.now e.now × IsRecorded n g.now s.now }
    requires within { (h : List Entry) × (g.now ≡ b.now ++ x.now ∷ h) }
    requires other { TouchesAll n b.now x.now other.now }
    requires touch { Touching n g.now e.now touch.now }
    ensures { MatchOption result (RacesWith n b.now x.now g.now e.now → ⊥) (λ c. RacesWith n b.now x.now g.now e.now × LeastShared b.now x.now g.now e.now (as_cell c)) }
{
    if x.image.0 == e.image.0 {
        return None;
    }
    if !is_apart(n, again, b, x, s, g, e) {
        return None;
    }
    shared(n, b, x, other, g, e, touch)
}

// The same; where the two are no race, x, which has this ask and reply, is recorded.
fn cell_or_follow(
    alloc: Global,
    n: u32,
    again: &mut Watcher,
    b: &[Entry],
    x: &Entry,
    ask: &Ask,
    reply: &Reply,
    s: &Recorder,
    g: &[Entry],
    e: &Entry,
    touch: &Touch,
) -> Result<Option<CellName>, NoMemory>
    requires exchange { (ask.now ≡ x.now.event.ask) × (reply.now ≡ x.now.event.reply) }
    requires there { Fits n b.now x.now × IsWatched n b.now again.old }
    requires note { MayNote n b.now x.now }
    requires here { FitsRun n g.now e.now × IsRecorded n g.now s.now }
    requires within { (h : List Entry) × (g.now ≡ b.now ++ x.now ∷ h) }
    requires touch { Touching n g.now e.now touch.now }
    ensures { IfOk result (λ o. MatchOption o ((RacesWith n b.now x.now g.now e.now → ⊥) × IsWatched n (b.now ++ x.now ∷ []) again.new) (λ c. RacesWith n b.now x.now g.now e.now × LeastShared b.now x.now g.now e.now (as_cell c))) }
{
    let other = again.recorder.touch_of(alloc, n, b, x, ask, reply)?;
    if let Some(cell) = race_cell(n, &again.recorder, b, x, &other, s, g, e, touch) {
        drop(other);
        return Ok(Some(cell));
    }
    let followed = again.follow(alloc, n, b, x, ask, reply, &other);
    drop(other);
    followed?;
    Ok(None)
}

// The same; the ask and reply of x are made here, once for all that reads them.
fn cell_at(
    alloc: Global,
    n: u32,
    again: &mut Watcher,
    b: &[Entry],
    x: &Entry,
    s: &Recorder,
    g: &[Entry],
    e: &Entry,
    touch: &Touch,
) -> Result<Option<CellName>, NoMemory>
    requires there { Fits n b.now x.now × IsWatched n b.now again.old }
    requires note { MayNote n b.now x.now }
    requires here { FitsRun n g.now e.now × IsRecorded n g.now s.now }
    requires within { (h : List Entry) × (g.now ≡ b.now ++ x.now ∷ h) }
    requires touch { Touching n g.now e.now touch.now }
    ensures { IfOk result (λ o. MatchOption o ((RacesWith n b.now x.now g.now e.now → ⊥) × IsWatched n (b.now ++ x.now ∷ []) again.new) (λ c. RacesWith n b.now x.now g.now e.now × LeastShared b.now x.now g.now e.now (as_cell c))) }
{
    let ask = x.event.told().ask(alloc);
    let reply = x.event.reply(alloc);
    let cell = cell_or_follow(alloc, n, again, b, x, &ask, &reply, s, g, e, touch);
    drop(ask);
    drop(reply);
    cell
}

// The first entry that is a race with e, which touches these cells: the entries are recorded once more, for the clock
// of each where it stands.
fn scan(
    alloc: Global,
    n: u32,
    s: &Recorder,
    before: &[Entry],
    e: &Entry,
    touch: &Touch,
) -> Result<Option<Partner>, NoMemory>
    requires all { AllFit n before.now × AllNoted n before.now }
    requires fits { FitsRun n before.now e.now }
    requires recorded { IsRecorded n before.now s.now }
    requires touch { Touching n before.now e.now touch.now }
    ensures { IfOk result (λ o. MatchOption o (NoneBelow n before.now e.now (length before.now)) (λ p. IsPartner n before.now e.now p.at (as_cell p.cell))) }
{
    let mut again = Watcher::new(alloc, n)?;
    for at in 0..before.len() {
        let b = &before[..at];
        let x = &before[at];
        if let Some(cell) = cell_at(alloc, n, &mut again, b, x, s, before, e, touch)? {
            return Ok(Some(Partner { at, cell }));
        }
    }
    Ok(None)
}

/// The first entry that is a race with e, which touches this, and the least cell that both touch.
pub fn first_partner(
    alloc: Global,
    n: u32,
    s: &Recorder,
    before: &[Entry],
    e: &Entry,
    touch: &Option<Touch>,
) -> Result<Option<Partner>, NoMemory>
    requires all { AllFit n before.now × AllNoted n before.now }
    requires fits { FitsRun n before.now e.now }
    requires recorded { IsRecorded n before.now s.now }
    requires touch { TouchesAll n before.now e.now touch.now }
    ensures { IfOk result (λ o. MatchOption o (NoneBelow n before.now e.now (length before.now)) (λ p. IsPartner n before.now e.now p.at (as_cell p.cell))) }
{
    match touch {
        Some(touch) => scan(alloc, n, s, before, e, touch),
        None => Ok(None),
    }
}

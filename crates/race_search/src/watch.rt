//! The first race of a trace.

ghost use Rattle.std.specs.Prelude.{◌≡◌, ◌<◌, ◌^◌, ℕ, List, [], ◌∷◌, ◌++◌, length, IfOk, MatchOption};
ghost use Rattle.object_rules.specs.Cells.{Declared};
ghost use Rattle.core_runs.specs.Lawful.{IsLawfulTrace};
ghost use Rattle.order_axioms.specs.Views.{edges};
ghost use Rattle.order_axioms.specs.Touching.{touches};
ghost use Rattle.order_axioms.specs.FirstRaces.{HasNoRace, IsFirstRace};
ghost use Rattle.race_watch.specs.ActParts.{as_cell};
ghost use Rattle.race_watch.specs.Recorded.{FitsRun, IsRecorded};
ghost use Rattle.race_watch.specs.Marked.{TouchesAll, MayNote};
ghost use Rattle.race_search.specs.Known.{Fits, AllFit, AllNoted};
ghost use Rattle.race_search.specs.Failures.{IsWatched};
ghost use Rattle.race_search.specs.Partners.{NoneBelow, IsPartner};

use crate::partner::{Partner, first_partner};
use crate::told::Watcher;
use caf_base::refusal::NoMemory;
use caf_events::ask::Ask;
use caf_events::event::Entry;
use caf_events::reply::Reply;
use race_watch::act::CellName;
use race_watch::recorder::Recorder;
use race_watch::touch::Touch;
use std::alloc::Global;

/// Two entries by their places in the trace from 0, the earlier one first, and the least cell that both touch.
#[derive(Clone, Copy)]
pub struct Race {
    pub first: usize,
    pub second: usize,
    pub cell: CellName,
}

// The first entry that is a race with the next one, which touches this, and the least cell that both touch.
fn partner_of(
    alloc: Global,
    n: u32,
    s: &Recorder,
    before: &[Entry],
    e: &Entry,
    touch: &Option<Touch>,
) -> Result<Option<Partner>, NoMemory>
    requires all { AllFit n before.now × AllNoted n before.now }
    requires fits { FitsRun n before.now e.now }
    requires recorded { IsRecorded n before.now s.now }
    requires touch { TouchesAll n before.now e.now touch.now }
    ensures { IfOk result (λ o. MatchOption o (NoneBelow n before.now e.now (length before.now)) (λ p. IsPartner n before.now e.now p.at (as_cell p.cell))) }
{
    if s.clash(n, before, e, touch) {
        first_partner(alloc, n, s, before, e, touch)
    } else {
        Ok(None)
    }
}

// The same; where there is none, the next entry, which has this ask and reply, is recorded.
fn partner_or_follow(
    alloc: Global,
    n: u32,
    watcher: &mut Watcher,
    before: &[Entry],
    e: &Entry,
    ask: &Ask,
    reply: &Reply,
    touch: &Option<Touch>,
) -> Result<Option<Partner>, NoMemory>
    requires exchange { (ask.now ≡ e.now.event.ask) × (reply.now ≡ e.now.event.reply) }
    requires all { AllFit n before.now × AllNoted n before.now }
    requires fits { Fits n before.now e.now }
    requires watched { IsWatched n before.now watcher.old }
    requires touch { TouchesAll n before.now e.now touch.now }
    requires none { NoneBelow n before.now e.now (length before.now) → MayNote n before.now e.now }
    ensures { IfOk result (λ o. MatchOption o (NoneBelow n before.now e.now (length before.now) × IsWatched n (before.now ++ e.now ∷ []) watcher.new) (λ p. IsPartner n before.now e.now p.at (as_cell p.cell))) }
{
    match partner_of(alloc, n, &watcher.recorder, before, e, touch)? {
        Some(partner) => Ok(Some(partner)),
        None => {
            watcher.follow(alloc, n, before, e, ask, reply, touch)?;
            Ok(None)
        }
    }
}

// The same; what the next entry touches is made here.
fn partner_by(
    alloc: Global,
    n: u32,
    watcher: &mut Watcher,
    before: &[Entry],
    e: &Entry,
    ask: &Ask,
    reply: &Reply,
) -> Result<Option<Partner>, NoMemory>
    requires exchange { (ask.now ≡ e.now.event.ask) × (reply.now ≡ e.now.event.reply) }
    requires all { AllFit n before.now × AllNoted n before.now }
    requires fits { Fits n before.now e.now }
    requires watched { IsWatched n before.now watcher.old }
    requires none { NoneBelow n before.now e.now (length before.now) → MayNote n before.now e.now }
    ensures { IfOk result (λ o. MatchOption o (NoneBelow n before.now e.now (length before.now) × IsWatched n (before.now ++ e.now ∷ []) watcher.new) (λ p. IsPartner n before.now e.now p.at (as_cell p.cell))) }
{
    let touch = watcher.recorder.touch_of(alloc, n, before, e, ask, reply)?;
    let partner = partner_or_follow(alloc, n, watcher, before, e, ask, reply, &touch);
    drop(touch);
    partner
}

// The same; its ask and reply are made here, once for all that reads them.
fn partner_at(
    alloc: Global,
    n: u32,
    watcher: &mut Watcher,
    before: &[Entry],
    e: &Entry,
) -> Result<Option<Partner>, NoMemory>
    requires all { AllFit n before.now × AllNoted n before.now }
    requires fits { Fits n before.now e.now }
    requires watched { IsWatched n before.now watcher.old }
    requires none { NoneBelow n before.now e.now (length before.now) → MayNote n before.now e.now }
    ensures { IfOk result (λ o. MatchOption o (NoneBelow n before.now e.now (length before.now) × IsWatched n (before.now ++ e.now ∷ []) watcher.new) (λ p. IsPartner n before.now e.now p.at (as_cell p.cell))) }
{
    let ask = e.event.told().ask(alloc);
    let reply = e.event.reply(alloc);
    let partner = partner_by(alloc, n, watcher, before, e, &ask, &reply);
    drop(ask);
    drop(reply);
    partner
}

/// The first race of the trace of a run of n images: the earliest entry that is a race with an earlier one, the
/// earliest such partner, and the least cell that both touch; None exactly where the trace has no race (ISO/IEC
/// 1539-1:2018, 11.6.2). Condition: the trace is lawful for some coarrays, and has fewer than 2^62 entries.
pub fn watch(alloc: Global, trace: &[Entry], n: u32) -> Result<Option<Race>, NoMemory>
    requires lawful { (coarrays : List Declared) × IsLawfulTrace coarrays n trace.now }
    requires short { length trace.now < 2 ^ 62 }
    ensures { IfOk result (λ o. MatchOption o (HasNoRace (edges n) touches trace.now) (λ r. IsFirstRace (edges n) touches trace.now r.first r.second (as_cell r.cell))) }
{
    let mut watcher = Watcher::new(alloc, n)?;
    for at in 0..trace.len() {
        let before = &trace[..at];
        let e = &trace[at];
        if let Some(partner) = partner_at(alloc, n, &mut watcher, before, e)? {
            return Ok(Some(Race {
                first: partner.at,
                second: at,
                cell: partner.cell,
            }));
        }
    }
    Ok(None)
}

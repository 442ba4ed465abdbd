//! What is kept while a trace is read, and the clock of the failed images of which a status speaks.

ghost use Rattle.std.specs.Prelude.{◌≡◌, ℕ, ◌∷◌, [], ◌++◌, length, map, IfOk};
ghost use Rattle.core_runs.specs.Beginnings.{IsOneOf};
ghost use Rattle.order_theory.specs.Order.{Within};
ghost use Rattle.order_theory.specs.Clocks.{Covers};
ghost use Rattle.order_theory.specs.Stored.{present};
ghost use Rattle.segment_clock.specs.Counts.{count_of};
ghost use Rattle.order_axioms.specs.Views.{view, edges};
ghost use Rattle.race_watch.specs.Recorded.{IsRecorded, IsTold};
ghost use Rattle.race_watch.specs.Marked.{TouchesAll, MayNote};
ghost use Rattle.race_search.specs.Known.{Fits, TellsOf};
ghost use Rattle.race_search.specs.Failures.{IsWatched};

use crate::failures::{Failure, keep_failure};
use crate::spoken::spoken;
use caf_base::place::ImageNo;
use caf_base::refusal::NoMemory;
use caf_events::ask::Ask;
use caf_events::event::Entry;
use caf_events::reply::Reply;
use race_watch::recorder::Recorder;
use race_watch::touch::Touch;
use segment_clock::clock::Clock;
use std::alloc::Global;

// The clocks of these images joined.
fn joined(
    alloc: Global,
    n: u32,
    s: &Recorder,
    before: &[Entry],
    images: &[u32],
) -> Result<Clock, NoMemory>
    requires known { (j : ℕ) → Within j images.now → IsOneOf n j }
    requires recorded { IsRecorded n before.now s.now }
    ensures size { IfOk result (λ c. length c ≡ n) }
    ensures covers { IfOk result (λ c. Covers (edges n) before.now (map (present (view n) before.now) images.now) (count_of c)) }
{
    let mut clock = Clock::new(alloc, n)?;
    for image in images {
        clock.join(s.clock(n, before, ImageNo(*image)));
    }
    Ok(clock)
}

// The same, and None where there is no image.
fn clock_of(
    alloc: Global,
    n: u32,
    s: &Recorder,
    before: &[Entry],
    images: &[u32],
) -> Result<Option<Clock>, NoMemory>
    requires known { (j : ℕ) → Within j images.now → IsOneOf n j }
    requires recorded { IsRecorded n before.now s.now }
    ensures { IfOk result (TellsOf n before.now images.now) }
{
    if images.is_empty() {
        Ok(None)
    } else {
        Ok(Some(joined(alloc, n, s, before, images)?))
    }
}

/// What is kept while the entries of a trace are read: the recorder, and the images that are gone.
#[derive(Drop)]
pub struct Watcher {
    pub(crate) recorder: Recorder,
    pub(crate) failures: Vec<Failure>,
}

impl Watcher {
    /// Before the first entry of a run of n images.
    pub fn new(alloc: Global, n: u32) -> Result<Watcher, NoMemory>
        ensures { IfOk result (IsWatched n []) }
    {
        Ok(Watcher {
            recorder: Recorder::new(alloc, n)?,
            failures: Vec::new(alloc),
        })
    }

    /// The clock that covers the last segments of the failed images of which the status of the entry, which has this
    /// ask and reply, speaks (11.6.11), None where it speaks of none.
    pub fn told(
        &self,
        alloc: Global,
        n: u32,
        before: &[Entry],
        e: &Entry,
        ask: &Ask,
        reply: &Reply,
    ) -> Result<Option<Clock>, NoMemory>
        requires exchange { (ask.now ≡ e.now.event.ask) × (reply.now ≡ e.now.event.reply) }
        requires fits { Fits n before.now e.now }
        requires watched { IsWatched n before.now self.now }
        ensures { IfOk result (IsTold n before.now e.now) }
    {
        let images = spoken(alloc, n, self.failures.as_slice(), before, e, ask, reply)?;
        let clock = clock_of(alloc, n, &self.recorder, before, images.as_slice());
        drop(images);
        clock
    }

    /// Records the next entry, which has this ask and reply, and touches this. Condition: no entry so far is unordered
    /// with it, or it is no access.
    pub fn follow(
        &mut self,
        alloc: Global,
        n: u32,
        before: &[Entry],
        e: &Entry,
        ask: &Ask,
        reply: &Reply,
        touch: &Option<Touch>,
    ) -> Result<(), NoMemory>
        requires exchange { (ask.now ≡ e.now.event.ask) × (reply.now ≡ e.now.event.reply) }
        requires fits { Fits n before.now e.now }
        requires watched { IsWatched n before.now self.old }
        requires touch { TouchesAll n before.now e.now touch.now }
        requires none { MayNote n before.now e.now }
        ensures { IfOk result (λ _. IsWatched n (before.now ++ e.now ∷ []) self.new) }
    {
        let told = self.told(alloc, n, before, e, ask, reply)?;
        let recorded = self
            .recorder
            .record(alloc, n, before, e, ask, reply, touch, &told);
        drop(told);
        recorded?;
        keep_failure(alloc, n, &mut self.failures, before, e, ask)
    }
}

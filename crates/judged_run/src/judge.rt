//! The entries of a trace, made one after the other.

ghost use Rattle.std.specs.Prelude.{◌≡◌, List, [], ◌∷◌, ◌++◌, IfOk, IfNone, MatchOption, true, false, Decides};
ghost use Rattle.caf_events.specs.declared.event.Event.{Event};
ghost use Rattle.core_runs.specs.Lists.{image_of};
ghost use Rattle.core_runs.specs.Moments.{rules, Steps};
ghost use Rattle.core_runs.specs.Beginnings.{Beginning};
ghost use Rattle.core_runs.specs.Kept.{IsKept};
ghost use Rattle.core_runs.specs.Traces.{IsTraceOf};
ghost use Rattle.image_core.specs.Parts.{moment, AreSound};
ghost use Rattle.trace_judge.specs.Verdicts.{IsFirstNot, IsDueNow};
ghost use Rattle.judged_run.specs.Judging.{IsLaterThan, IsRunTo, Leads};

use caf_base::refusal::NoMemory;
use caf_events::event::{Entry, Event};
use caf_events::object::Object;
use caf_events::walker::Walker;
use image_core::parts::{PartsOf, Ready};
use image_core::run::ImageRun;
use same_entries::events::same_event;
use std::alloc::Global;

// Whether an entry stands behind the last one in the order of a trace; behind none every one does.
fn is_later(last: Option<&Entry>, next: &Entry) -> bool
    ensures { Decides result (IsLaterThan last.entry next.now) }
{
    match last {
        None => true,
        Some(entry) => {
            entry.event.stamp() < next.event.stamp()
                || (entry.event.stamp() == next.event.stamp() && entry.image.0 < next.image.0)
        }
    }
}

// Whether the image's last event is this one.
fn made_is<M: Walker>(alloc: Global, run: &ImageRun<M>, event: &Event) -> bool
    ensures { (es : List Event) (made : Event)
        → run.now.events.items ≡ es ++ made ∷ [] → Decides result (made ≡ event.now) }
{
    match run.events().last() {
        Some(made) => same_event(alloc, made, event),
        None => false,
    }
}

// Makes the next step of the entry's image, where it has one: the step is the entry's own exactly where the answer is
// yes. After no, and after want of memory, the parts may have made another step of that image.
fn make_entry<M: Walker, O: Object, B: Object>(
    alloc: Global,
    parts: &mut PartsOf<M, O, B>,
    entry: &Entry,
) -> Result<bool, NoMemory>
    requires sound { AreSound M.Walker O.Object B.Object parts.old }
    ensures sound { AreSound M.Walker O.Object B.Object parts.new }
    ensures yes { IfOk result (λ b. b ≡ true
        → Steps (rules M.Walker O.Object B.Object) (moment M.Walker O.Object B.Object parts.old)
        (image_of entry.now) entry.now.event (moment M.Walker O.Object B.Object parts.new)) }
    ensures no { IfOk result (λ b. b ≡ false
        → IsDueNow (rules M.Walker O.Object B.Object) (moment M.Walker O.Object B.Object parts.old) entry.now → ⊥) }
{
    let image = entry.image;
    if image.0 == 0 || image.0 as usize > parts.images.len() {
        return Ok(false);
    }
    match parts.prepare(image)? {
        Ready::Can => {}
        Ready::NotYet | Ready::Over => return Ok(false),
    }
    parts.commit(image);
    let at = (image.0 - 1) as usize;
    Ok(made_is(alloc, &parts.images[at], &entry.event))
}

/// Judges the entries of a trace by the parts of a run at its first moment: `None` exactly where they are a core run,
/// and then the parts are at the moment behind it; else the first step, from 1, by which they are none. After a step,
/// and after want of memory, the parts are at a moment that says nothing of the trace, and are to be given up.
pub fn judge_entries<M: Walker, O: Object, B: Object>(
    alloc: Global,
    parts: &mut PartsOf<M, O, B>,
    entries: &[Entry],
) -> Result<Option<usize>, NoMemory>
    requires sound { AreSound M.Walker O.Object B.Object parts.old }
    ensures sound { AreSound M.Walker O.Object B.Object parts.new }
    ensures verdict { IfOk result (λ step. (b : Beginning M.Config O.Made B.Made)
        → IsKept (rules M.Walker O.Object B.Object) b (moment M.Walker O.Object B.Object parts.old)
        → IsTraceOf (moment M.Walker O.Object B.Object parts.old).events []
        → MatchOption step
        (IsRunTo (rules M.Walker O.Object B.Object) b entries.now (moment M.Walker O.Object B.Object parts.new))
        (IsFirstNot (rules M.Walker O.Object B.Object) b entries.now)) }
    // The entries of a core run are the steps that were made.
    ensures made { IfOk result (λ step. IfNone step (Leads (rules M.Walker O.Object B.Object)
        (moment M.Walker O.Object B.Object parts.old) entries.now (moment M.Walker O.Object B.Object parts.new))) }
{
    let mut last = None;
    for k in 0..entries.len() {
        let entry = &entries[k];
        if !is_later(last, entry) {
            return Ok(Some(k + 1));
        }
        if !make_entry(alloc, parts, entry)? {
            return Ok(Some(k + 1));
        }
        last = Some(entry);
    }
    Ok(None)
}

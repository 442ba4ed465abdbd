//! The laws of runs: what is kept from the first moment on, and what its trace is then.

ghost use Rattle.std.specs.Prelude.{◌≡◌, ℕ, List, Some, true, false, IsTrue};
ghost use Rattle.std.specs.List.{list_all};
ghost use Rattle.caf_base.specs.declared.place.Place.{Place};
ghost use Rattle.caf_events.specs.declared.ask.Ask.{Ask};
ghost use Rattle.caf_events.specs.declared.event.Event.{Event};
ghost use Rattle.caf_events.specs.declared.event.Entry.{Entry};
ghost use Rattle.caf_events.specs.Walkers.{AsksNext, IsAtLine, IsOver};
ghost use Rattle.caf_events.specs.Asks.{place_of};
ghost use Rattle.object_rules.specs.Cells.{Declared, MadeMemory};
ghost use Rattle.object_rules.specs.MemoryRules.{has_first_values};
ghost use Rattle.core_runs.specs.Moments.{Moment, rules, item_at, ready_there, reply_there, can_step, Steps};
ghost use Rattle.core_runs.specs.Beginnings.{Beginning, IsFirst};
ghost use Rattle.core_runs.specs.CoreRuns.{IsCoreRun, IsFit};
ghost use Rattle.core_runs.specs.Sequences.{EndsByItself};
ghost use Rattle.core_runs.specs.Kept.{IsKept};
ghost use Rattle.core_runs.specs.Lawful.{IsLawfulTrace, full_rules, full_beginning};
ghost use Rattle.core_runs.specs.Traces.{IsTraceOf};
ghost use Rattle.core_runs.specs.Waits.{HasEndedIn, IsWaiting};

use caf_events::object::Object;
use caf_events::walker::Walker;

/// Before the first step all that is kept holds.
pub fn law_first_kept<M: Walker, O: Object, B: Object>()
    ensures { (b : Beginning M.Config O.Made B.Made) (m : Moment M.Config O.Made B.Made) → IsFit (rules M.Walker O.Object B.Object) b
        → IsFirst (rules M.Walker O.Object B.Object) b m
        → IsKept (rules M.Walker O.Object B.Object) b m }
{}

/// A step keeps all that is kept.
pub fn law_kept_more<M: Walker, O: Object, B: Object>()
    ensures { (b : Beginning M.Config O.Made B.Made) (m m' : Moment M.Config O.Made B.Made) (i : ℕ) (e : Event)
        → IsKept (rules M.Walker O.Object B.Object) b m
        → Steps (rules M.Walker O.Object B.Object) m i e m'
        → IsKept (rules M.Walker O.Object B.Object) b m' }
{}

/// The image that stands at an ask which can come now can go on with the reply that is due.
pub fn law_heard<M: Walker, O: Object, B: Object>()
    ensures { (b : Beginning M.Config O.Made B.Made) (m : Moment M.Config O.Made B.Made) (i : ℕ) (c : M.Config) (ask : Ask)
        → IsKept (rules M.Walker O.Object B.Object) b m
        → item_at m.configs i ≡ Some c → AsksNext (M.step c) ask
        → IsTrue (ready_there (rules M.Walker O.Object B.Object) m i ask (place_of ask))
        → M.hears c (reply_there (rules M.Walker O.Object B.Object) m i ask (place_of ask)) }
{}

/// A step at one object leaves readiness at the others as it is: every ask there can come exactly if it could before,
/// and another image whose next ask isn't at the step's place can step exactly if it could.
pub fn law_ready_elsewhere<M: Walker, O: Object, B: Object>()
    ensures ready { (m m' : Moment M.Config O.Made B.Made) (i : ℕ) (e : Event) → Steps (rules M.Walker O.Object B.Object) m i e m'
        → (j : ℕ) (ask : Ask) (place : Place) → (place ≡ place_of e.ask → ⊥)
        → ready_there (rules M.Walker O.Object B.Object) m' j ask place ≡ ready_there (rules M.Walker O.Object B.Object) m j ask place }
    ensures can { (m m' : Moment M.Config O.Made B.Made) (i : ℕ) (e : Event) → Steps (rules M.Walker O.Object B.Object) m i e m'
        → (j : ℕ) → (i ≡ j → ⊥)
        → ((c : M.Config) → item_at m.configs j ≡ Some c → (ask : Ask) → AsksNext (M.step c) ask → place_of ask ≡ place_of e.ask → ⊥)
        → can_step (rules M.Walker O.Object B.Object) m' j ≡ can_step (rules M.Walker O.Object B.Object) m j }
{}

/// The trace of what is kept is a core run.
pub fn law_core_run<M: Walker, O: Object, B: Object>()
    ensures { (b : Beginning M.Config O.Made B.Made) (m : Moment M.Config O.Made B.Made) (t : List Entry)
        → IsKept (rules M.Walker O.Object B.Object) b m → IsTraceOf m.events t
        → IsCoreRun (rules M.Walker O.Object B.Object) b t }
{}

/// The trace of what is kept in a run whose memories and control board are those of the language is lawful, whatever
/// the images' machines are, where each static coarray of values has a first value of its kind for each of its cells.
pub fn law_lawful<M: Walker>()
    ensures { (coarrays : List Declared) (n : ℕ) (first : ℕ → M.Config) (m : Moment M.Config MadeMemory ℕ) (t : List Entry)
        → list_all has_first_values coarrays ≡ true
        → IsKept (full_rules M.step M.hears) (full_beginning coarrays n first) m → IsTraceOf m.events t → IsLawfulTrace coarrays n t }
{}

/// So is every core run whose programs are fit, with such coarrays: who knows that a trace is a core run can cite the
/// laws of lawful traces.
pub fn law_core_run_lawful<M: Walker>()
    ensures { (coarrays : List Declared) (n : ℕ) (first : ℕ → M.Config) (t : List Entry)
        → list_all has_first_values coarrays ≡ true
        → IsFit (full_rules M.step M.hears) (full_beginning coarrays n first) → IsCoreRun (full_rules M.step M.hears) (full_beginning coarrays n first) t
        → IsLawfulTrace coarrays n t }
{}

/// An image that has ended made a step that ended it, where its machine is over only behind such a step.
pub fn law_ended<M: Walker, O: Object, B: Object>()
    ensures { (b : Beginning M.Config O.Made B.Made) (m : Moment M.Config O.Made B.Made) (t : List Entry) (i : ℕ) (c : M.Config)
        → IsKept (rules M.Walker O.Object B.Object) b m → IsTraceOf m.events t → EndsByItself M.step (b.first i)
        → item_at m.configs i ≡ Some c → IsOver (M.step c) → HasEndedIn i t }
{}

/// An image that hasn't ended and can't step waits: its next ask isn't ready after the trace.
pub fn law_waiting<M: Walker, O: Object, B: Object>()
    ensures { (b : Beginning M.Config O.Made B.Made) (m : Moment M.Config O.Made B.Made) (t : List Entry) (i : ℕ) (c : M.Config) (ask : Ask) (line : ℕ)
        → IsKept (rules M.Walker O.Object B.Object) b m → IsTraceOf m.events t
        → item_at m.configs i ≡ Some c → can_step (rules M.Walker O.Object B.Object) m i ≡ false
        → AsksNext (M.step c) ask → IsAtLine (M.step c) line
        → IsWaiting (rules M.Walker O.Object B.Object) b t i line ask }
{}

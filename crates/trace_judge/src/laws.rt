//! The laws by which a trace is judged, one step after the other.

ghost use Rattle.std.specs.Prelude.{◌≡◌, ℕ, List, [], ◌∷◌, ◌++◌, length, ◌+◌, true};
ghost use Rattle.caf_events.specs.declared.event.Entry.{Entry};
ghost use Rattle.caf_events.specs.declared.event.Event.{Event};
ghost use Rattle.trace_theory.specs.Entries.{Earlier, IsTraceOrder};
ghost use Rattle.core_runs.specs.Lists.{image_of, stamp_of};
ghost use Rattle.core_runs.specs.Moments.{Moment, rules, can_step, Steps};
ghost use Rattle.core_runs.specs.Beginnings.{Beginning};
ghost use Rattle.core_runs.specs.CoreRuns.{IsCoreRun};
ghost use Rattle.core_runs.specs.Kept.{IsKept};
ghost use Rattle.core_runs.specs.Traces.{IsTraceOf};
ghost use Rattle.trace_judge.specs.Verdicts.{IsFirstNot, IsBehind, IsDueNow};

use caf_events::object::Object;
use caf_events::walker::Walker;

/// Where the trace of a moment goes on as a core run by one entry, that entry is the event that is due, and it stands
/// behind all others.
pub fn law_next_is_due<M: Walker, O: Object, B: Object>()
    ensures due { (b : Beginning M.Config O.Made B.Made) (m : Moment M.Config O.Made B.Made)
        (t : List Entry) (e : Entry)
        → IsKept (rules M.Walker O.Object B.Object) b m → IsTraceOf m.events t
        → IsCoreRun (rules M.Walker O.Object B.Object) b (t ++ e ∷ [])
        → IsDueNow (rules M.Walker O.Object B.Object) m e }
    ensures behind { (b : Beginning M.Config O.Made B.Made) (t : List Entry) (e : Entry)
        → IsCoreRun (rules M.Walker O.Object B.Object) b (t ++ e ∷ []) → IsBehind t e }
{}

/// Where the step of a moment stands behind all entries of its trace, these and it are the trace of the moment behind
/// that step.
pub fn law_trace_more<M: Walker, O: Object, B: Object>()
    ensures { (b : Beginning M.Config O.Made B.Made) (m m' : Moment M.Config O.Made B.Made) (t : List Entry) (e : Entry)
        → IsKept (rules M.Walker O.Object B.Object) b m → IsTraceOf m.events t
        → Steps (rules M.Walker O.Object B.Object) m (image_of e) e.event m' → IsBehind t e
        → IsTraceOf m'.events (t ++ e ∷ []) }
{}

/// Where an event is due its image can step, and the step that it makes is that event.
pub fn law_due_is_made<M: Walker, O: Object, B: Object>()
    ensures can { (m : Moment M.Config O.Made B.Made) (e : Entry)
        → IsDueNow (rules M.Walker O.Object B.Object) m e
        → can_step (rules M.Walker O.Object B.Object) m (image_of e) ≡ true }
    ensures made { (m m' : Moment M.Config O.Made B.Made) (e : Entry) (f : Event)
        → IsDueNow (rules M.Walker O.Object B.Object) m e
        → Steps (rules M.Walker O.Object B.Object) m (image_of e) f m' → f ≡ e.event }
{}

/// What stands behind the last entry of a trace stands behind all of them.
pub fn law_behind_last()
    ensures { (t : List Entry) (last e : Entry) → IsTraceOrder image_of stamp_of (t ++ last ∷ [])
        → Earlier image_of stamp_of last e → IsBehind (t ++ last ∷ []) e }
{}

/// The first step at which the entries so far are no core run is told by two fronts: the entries before it are one, and
/// with it they aren't. There is at most one such step, and none in a core run.
pub fn law_first_not<M: Walker, O: Object, B: Object>()
    ensures first { (b : Beginning M.Config O.Made B.Made) (t : List Entry) (e : Entry) (rest : List Entry)
        → IsCoreRun (rules M.Walker O.Object B.Object) b t
        → (IsCoreRun (rules M.Walker O.Object B.Object) b (t ++ e ∷ []) → ⊥)
        → IsFirstNot (rules M.Walker O.Object B.Object) b (t ++ e ∷ rest) (length t + 1) }
    ensures one { (b : Beginning M.Config O.Made B.Made) (t : List Entry) (j k : ℕ)
        → IsFirstNot (rules M.Walker O.Object B.Object) b t j
        → IsFirstNot (rules M.Walker O.Object B.Object) b t k → j ≡ k }
    ensures run { (b : Beginning M.Config O.Made B.Made) (t : List Entry) (j : ℕ)
        → IsCoreRun (rules M.Walker O.Object B.Object) b t
        → IsFirstNot (rules M.Walker O.Object B.Object) b t j → ⊥ }
{}

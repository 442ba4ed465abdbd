//! The laws of runs of programs that say the same.

ghost use Rattle.std.specs.Prelude.{◌≡◌, ℕ, List};
ghost use Rattle.caf_events.specs.declared.ask.Ask.{Ask};
ghost use Rattle.caf_events.specs.declared.event.Entry.{Entry};
ghost use Rattle.core_runs.specs.Moments.{Moment, rules};
ghost use Rattle.core_runs.specs.Beginnings.{Beginning, IsImage};
ghost use Rattle.core_runs.specs.CoreRuns.{IsCoreRun, IsFit};
ghost use Rattle.core_runs.specs.Lanes.{IsMoment, HearsDue};
ghost use Rattle.core_runs.specs.Orders.{IsOrderTrace};
ghost use Rattle.core_runs.specs.Sequences.{EndsByItself};
ghost use Rattle.core_runs.specs.Waits.{IsWaiting};
ghost use Rattle.core_runs.specs.Same.{SaysAs, ImagesSayAs, RepliesAnswer, with_programs};

use crate::order_laws::Choices;
use caf_events::object::Object;
use caf_events::walker::Walker;

/// The core runs of programs are those of programs that say the same, where the run is fit, or where each reply answers
/// its ask.
pub fn law_same_core_runs<M: Walker, N: Walker, O: Object, B: Object>()
    ensures fit { (b : Beginning M.Config O.Made B.Made) (first : ℕ → N.Config) → ImagesSayAs M.step N.step b first
        → IsFit (rules M.Walker O.Object B.Object) b
        → (t : List Entry) → IsCoreRun (rules M.Walker O.Object B.Object) b t
        → IsCoreRun (rules N.Walker O.Object B.Object) (with_programs b first) t }
    ensures replies { (b : Beginning M.Config O.Made B.Made) (first : ℕ → N.Config) → ImagesSayAs M.step N.step b first
        → RepliesAnswer (rules M.Walker O.Object B.Object)
        → (t : List Entry) → IsCoreRun (rules M.Walker O.Object B.Object) b t
        → IsCoreRun (rules N.Walker O.Object B.Object) (with_programs b first) t }
{}

/// So are the ordered runs: each image can step at the same moments, and makes the same steps.
pub fn law_same_orders<M: Walker, N: Walker, O: Object, B: Object, S: Choices>()
    ensures fit { (b : Beginning M.Config O.Made B.Made) (first : ℕ → N.Config) → ImagesSayAs M.step N.step b first
        → IsFit (rules M.Walker O.Object B.Object) b
        → (s : S.State) (t : List Entry) → IsOrderTrace (rules M.Walker O.Object B.Object) b S.chooser s t
        → IsOrderTrace (rules N.Walker O.Object B.Object) (with_programs b first) S.chooser s t }
    ensures replies { (b : Beginning M.Config O.Made B.Made) (first : ℕ → N.Config) → ImagesSayAs M.step N.step b first
        → RepliesAnswer (rules M.Walker O.Object B.Object)
        → (s : S.State) (t : List Entry) → IsOrderTrace (rules M.Walker O.Object B.Object) b S.chooser s t
        → IsOrderTrace (rules N.Walker O.Object B.Object) (with_programs b first) S.chooser s t }
{}

/// And after a core run the same images wait, at the same asks and lines. (Which images have ended is told by the trace
/// alone: `HasEndedIn`.)
pub fn law_same_waits<M: Walker, N: Walker, O: Object, B: Object>()
    ensures fit { (b : Beginning M.Config O.Made B.Made) (first : ℕ → N.Config) → ImagesSayAs M.step N.step b first
        → IsFit (rules M.Walker O.Object B.Object) b
        → (t : List Entry) → IsCoreRun (rules M.Walker O.Object B.Object) b t
        → (i line : ℕ) (ask : Ask) → IsWaiting (rules M.Walker O.Object B.Object) b t i line ask
        → IsWaiting (rules N.Walker O.Object B.Object) (with_programs b first) t i line ask }
    ensures replies { (b : Beginning M.Config O.Made B.Made) (first : ℕ → N.Config) → ImagesSayAs M.step N.step b first
        → RepliesAnswer (rules M.Walker O.Object B.Object)
        → (t : List Entry) → IsCoreRun (rules M.Walker O.Object B.Object) b t
        → (i line : ℕ) (ask : Ask) → IsWaiting (rules M.Walker O.Object B.Object) b t i line ask
        → IsWaiting (rules N.Walker O.Object B.Object) (with_programs b first) t i line ask }
{}

/// A run of programs that say what those of a fit run say is fit, where they hear the replies that are due; and a
/// program that says what another one says ends by itself as that one does.
pub fn law_same_fit<M: Walker, N: Walker, O: Object, B: Object>()
    ensures fit { (b : Beginning M.Config O.Made B.Made) (first : ℕ → N.Config) → ((i : ℕ) → IsImage b i → SaysAs N.step M.step (first i) (b.first i))
        → ((m : Moment N.Config O.Made B.Made) → IsMoment (rules N.Walker O.Object B.Object) (with_programs b first) m → HearsDue (rules N.Walker O.Object B.Object) m)
        → IsFit (rules M.Walker O.Object B.Object) b
        → IsFit (rules N.Walker O.Object B.Object) (with_programs b first) }
    ensures ends { (c : M.Config) (d : N.Config) → SaysAs N.step M.step d c → EndsByItself M.step c → EndsByItself N.step d }
{}

//! Other runs of the same programs beside a given trace.

ghost use Rattle.std.specs.Prelude.{◌≡◌, ℕ, List, [], ◌∷◌, ◌++◌};
ghost use Rattle.caf_events.specs.declared.ask.Ask.{Ask};
ghost use Rattle.caf_events.specs.declared.event.Entry.{Entry};
ghost use Rattle.core_runs.specs.Moments.{rules};
ghost use Rattle.core_runs.specs.Beginnings.{Beginning};
ghost use Rattle.core_runs.specs.CoreRuns.{IsCoreRun, said_by};
ghost use Rattle.core_runs.specs.Waits.{HasEndedIn, IsWaiting};
ghost use Rattle.every_order.specs.EveryOrder.{SaysNoMore};
ghost use Rattle.every_order.specs.Following.{RepliesSame, StaysAtEnd};

use caf_events::object::Object;
use caf_events::walker::Walker;

/// Where each next step hears the reply that it has in the trace t, and an image that said all that it says in t makes
/// no further step, the images of each core run say fronts of what they say in t.
pub fn law_images_say_no_more<M: Walker, O: Object, B: Object>()
    ensures { (n : ℕ) (b : Beginning M.Config O.Made B.Made) (t u : List Entry)
        → IsCoreRun (rules M.Walker O.Object B.Object) b t
        → RepliesSame n (rules M.Walker O.Object B.Object) b t
        → StaysAtEnd n (rules M.Walker O.Object B.Object) b t
        → IsCoreRun (rules M.Walker O.Object B.Object) b u → SaysNoMore t u }
{}

/// An image that said all that it says in t makes no further step where it ended in t; and where it waits in t, its
/// next step asks for what it waits for.
pub fn law_behind_the_end<M: Walker, O: Object, B: Object>()
    ensures ended { (b : Beginning M.Config O.Made B.Made) (t g : List Entry) (x : Entry)
        → IsCoreRun (rules M.Walker O.Object B.Object) b (g ++ x ∷ [])
        → said_by x.image.0 t ≡ said_by x.image.0 g → HasEndedIn x.image.0 t → ⊥ }
    ensures waits { (b : Beginning M.Config O.Made B.Made) (t g : List Entry) (x : Entry) (line : ℕ) (ask : Ask)
        → IsCoreRun (rules M.Walker O.Object B.Object) b (g ++ x ∷ [])
        → said_by x.image.0 t ≡ said_by x.image.0 g
        → IsWaiting (rules M.Walker O.Object B.Object) b t x.image.0 line ask → x.event.ask ≡ ask }
{}

//! The laws of fronts and of the order of a run.

ghost use Rattle.std.specs.Prelude.{◌≡◌, ◌++◌, ℕ, List};
ghost use Rattle.caf_events.specs.declared.event.Entry.{Entry};
ghost use Rattle.object_rules.specs.Cells.{Declared};
ghost use Rattle.trace_theory.specs.Machines.{OneNextAsk};
ghost use Rattle.core_runs.specs.Moments.{rules};
ghost use Rattle.core_runs.specs.Beginnings.{Beginning};
ghost use Rattle.core_runs.specs.CoreRuns.{IsCoreRun, IsFit};
ghost use Rattle.core_runs.specs.Lawful.{IsLawfulTrace};
ghost use Rattle.core_runs.specs.Orders.{Chooser, IsOrderTrace};

use caf_events::object::Object;
use caf_events::walker::Walker;

/// The choices of an ordered run: where they stand, and how each one is made.
pub trait Choices {
    ghost State: { Type 0 };

    ghost chooser: { Chooser State };
}

/// A machine has at most one next ask.
pub fn law_one_next_ask<M: Walker>()
    ensures { OneNextAsk M.step }
{}

/// Every front of a core run is a core run.
pub fn law_front<M: Walker, O: Object, B: Object>()
    ensures { (b : Beginning M.Config O.Made B.Made) (front rest : List Entry)
        → IsCoreRun (rules M.Walker O.Object B.Object) b (front ++ rest)
        → IsCoreRun (rules M.Walker O.Object B.Object) b front }
{}

/// Every front of a lawful trace is lawful.
pub fn law_lawful_front()
    ensures { (coarrays : List Declared) (n : ℕ) (front rest : List Entry) → IsLawfulTrace coarrays n (front ++ rest) → IsLawfulTrace coarrays n front }
{}

/// There is one trace of an ordered run: the beginning and the choices tell it.
pub fn law_one_order_trace<M: Walker, O: Object, B: Object, S: Choices>()
    ensures { (b : Beginning M.Config O.Made B.Made) (s : S.State) (t u : List Entry)
        → IsOrderTrace (rules M.Walker O.Object B.Object) b S.chooser s t
        → IsOrderTrace (rules M.Walker O.Object B.Object) b S.chooser s u → t ≡ u }
{}

/// The trace of an ordered run is a core run.
pub fn law_order_core<M: Walker, O: Object, B: Object, S: Choices>()
    ensures { (b : Beginning M.Config O.Made B.Made) (s : S.State) (t : List Entry)
        → IsFit (rules M.Walker O.Object B.Object) b
        → IsOrderTrace (rules M.Walker O.Object B.Object) b S.chooser s t
        → IsCoreRun (rules M.Walker O.Object B.Object) b t }
{}

//! The end of a run whose images say the same.

ghost use Rattle.std.specs.Prelude.{ℕ};
ghost use Rattle.caf_events.specs.declared.ask.Ask.{Ask};
ghost use Rattle.caf_events.specs.declared.event.Trace.{Trace};
ghost use Rattle.caf_report.specs.declared.report.End.{End};
ghost use Rattle.core_runs.specs.Beginnings.{Beginning, IsImage};
ghost use Rattle.core_runs.specs.Moments.{rules};
ghost use Rattle.core_runs.specs.Waits.{IsWaiting};
ghost use Rattle.order_report.specs.Reports.{IsReportEnd};

use caf_events::object::Object;
use caf_events::walker::Walker;

/// The end of a report is that of a run on the same images in which the same images wait, at the same asks and lines.
pub fn law_same_end<M: Walker, N: Walker, O: Object, B: Object>()
    ensures { (b : Beginning M.Config O.Made B.Made) (a : Beginning N.Config O.Made B.Made) (t : Trace) → ((i : ℕ) → IsImage a i → IsImage b i)
        → ((i line : ℕ) (ask : Ask) → IsWaiting (rules M.Walker O.Object B.Object) b t.entries i line ask → IsWaiting (rules N.Walker O.Object B.Object) a t.entries i line ask)
        → (n : ℕ) (end : End) → IsReportEnd n (rules M.Walker O.Object B.Object) b t end → IsReportEnd n (rules N.Walker O.Object B.Object) a t end }
{}

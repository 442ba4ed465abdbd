//! Who waits for whom, and for how long.

ghost use Rattle.std.specs.Prelude.{◌≡◌, ◌⊎◌, ℕ, true, false, List, ◌++◌};
ghost use Rattle.caf_events.specs.declared.ask.Ask.{Ask};
ghost use Rattle.caf_events.specs.declared.event.Entry.{Entry};
ghost use Rattle.object_rules.specs.Cells.{Declared};
ghost use Rattle.trace_theory.specs.Entries.{Each};
ghost use Rattle.core_runs.specs.Lawful.{IsLawfulTrace};
ghost use Rattle.wait_reason.specs.WaitsFor.{WaitsFor, waits_with, is_fit_after, is_ready_after, IsNotOf, Undisturbed};
ghost use Rattle.wait_reason.specs.Chains.{IsEventWait};

/// Where image i waits for image j with this ask after the trace t, and a lawful trace goes on from t by entries of
/// which none is j's, that ask isn't ready there either. For LOCK none of these entries may mark that memory, or
/// allocate or deallocate a coarray there: a lock of a failed image's memory doesn't wait, and a coarray that is made
/// anew has its locks unlocked.
pub fn law_waits()
    ensures { (coarrays : List Declared) (n : ℕ) (t u : List Entry) (i j : ℕ) (ask : Ask) → IsLawfulTrace coarrays n (t ++ u) → WaitsFor coarrays n t i ask j
        → Each (IsNotOf j) u → Undisturbed ask u → is_ready_after coarrays n (t ++ u) i ask ≡ false }
{}

/// With an ask that fits and isn't ready after a trace an image waits for a post (EVENT WAIT, 11.6.8) or for some
/// image.
pub fn law_some_waits()
    ensures { (coarrays : List Declared) (n : ℕ) (t : List Entry) (i : ℕ) (ask : Ask) → is_fit_after coarrays n t i ask ≡ true → is_ready_after coarrays n t i ask ≡ false
        → IsEventWait ask ⊎ ((j : ℕ) × (waits_with n t i ask j ≡ true)) }
{}

//! What is true of final values. The law is the contract of a function that does nothing.

ghost use Rattle.std.specs.Prelude.{◌≡◌, ℕ, List};
ghost use Rattle.caf_events.specs.declared.event.Entry.{Entry};
ghost use Rattle.caf_report.specs.declared.report.Final.{Final};
ghost use Rattle.checked_tree.specs.Statements as checked;
ghost use Rattle.final_values.specs.declared.listing.Listed.{Listed};
ghost use Rattle.object_rules.specs.Cells.{Declared};
ghost use Rattle.program_run.specs.Finals.{AreProgramFinals};

/// The trace of a run determines its final values.
pub fn law_final_values_are_determined()
    ensures { (p : checked.Program) (limit : ℕ) (coarrays : List Declared) (n : ℕ) (fails_at : ℕ → ℕ) (words : ℕ) (listed : List Listed) (t : List Entry) (fs gs : List Final)
        → AreProgramFinals p limit coarrays n fails_at words listed t fs → AreProgramFinals p limit coarrays n fails_at words listed t gs → fs ≡ gs }
{}

//! The laws of the reports of decided runs. Each is the contract of a function that does nothing.

ghost use Rattle.std.specs.Prelude.{◌≡◌, ℕ, List, Option, true, false};
ghost use Rattle.std.specs.List.{list_all};
ghost use Rattle.fortran_tree.specs.Units as units;
ghost use Rattle.caf_report.specs.declared.report.Report.{Report};
ghost use Rattle.caf_report.specs.ReportText.{report_text};
ghost use Rattle.checked_tree.specs.Statements.{Program};
ghost use Rattle.rule_definitions.specs.Acceptance.{Accepts};
ghost use Rattle.object_rules.specs.Cells.{Declared};
ghost use Rattle.object_rules.specs.MemoryRules.{has_first_values};
ghost use Rattle.every_order.specs.Decided.{IsDecided};
ghost use Rattle.order_lines.specs.Lines.{every_order_text, IsOrderLine};
ghost use Rattle.program_run.specs.Reports.{IsProgramReport};
ghost use Rattle.full_report.specs.declared.way.Way.{Way};
ghost use Rattle.checked_run.specs.declared.running.Told.{Told};
ghost use Rattle.checked_run.specs.Coarrays.{coarrays_of};
ghost use Rattle.checked_run.specs.Reports.{IsRunOf};
ghost use Rattle.every_report.specs.SameReports.{in_way, without_steps, ShowTheSame};

/// The report of a decided run of a checked program tells of each other report of a run of it, in whatever order its
/// images take turns, with the same numbers: that one has the same end, and the same printed lines.
pub fn law_every_end()
    ensures end { (p : Program) (limit : ℕ) (coarrays : List Declared) (n : ℕ) (fails_at : ℕ → ℕ) (words : ℕ) (order other : Option ℕ) (r s : Report)
        → list_all has_first_values coarrays ≡ true → IsProgramReport p limit coarrays n fails_at words order r → IsDecided n r.trace.entries
        → IsProgramReport p limit coarrays n fails_at words other s → s.end ≡ r.end }
    ensures printed { (p : Program) (limit : ℕ) (coarrays : List Declared) (n : ℕ) (fails_at : ℕ → ℕ) (words : ℕ) (order other : Option ℕ) (r s : Report)
        → list_all has_first_values coarrays ≡ true → IsProgramReport p limit coarrays n fails_at words order r → IsDecided n r.trace.entries
        → IsProgramReport p limit coarrays n fails_at words other s → report_text (without_steps false) s ≡ report_text (without_steps false) r }
{}

/// Where the line of a report is `every order`, each other report of a run of the program that is told the same, but
/// for the way in which its images take turns, shows the same: its end, its printed lines and its final values.
pub fn law_every_report()
    ensures { (p : Program) (told : Told) (way : Way) (fails_at : ℕ → ℕ) (r s : Report) → list_all has_first_values (coarrays_of p) ≡ true
        → IsRunOf p told fails_at r → IsOrderLine r.images r.trace.entries r.end every_order_text → IsRunOf p (in_way told way) fails_at s → ShowTheSame r s }
{}

/// So it is of each program that the rules accept.
pub fn law_accepted_every_report()
    ensures { (x : units.Program) (p : Program) → Accepts x p → (told : Told) (way : Way) (fails_at : ℕ → ℕ) (r s : Report)
        → IsRunOf p told fails_at r → IsOrderLine r.images r.trace.entries r.end every_order_text → IsRunOf p (in_way told way) fails_at s → ShowTheSame r s }
{}

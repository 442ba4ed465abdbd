//! The law of the texts of runs. It is the contract of a function that does nothing.

ghost use Rattle.std.specs.Prelude.{◌≡◌, ◌≤◌, ℕ, true, List, length};
ghost use Rattle.trace_theory.specs.Entries.{Each};
ghost use Rattle.caf_report.specs.declared.report.Report.{Report};
ghost use Rattle.caf_report.specs.declared.report.Shown.{Shown};
ghost use Rattle.caf_report.specs.ReportText.{report_text};
ghost use Rattle.fortran_tree.specs.Units as tree;
ghost use Rattle.checked_tree.specs.Statements.{Program};
ghost use Rattle.object_rules.specs.BoardTeams.{teams_after};
ghost use Rattle.core_runs.specs.CoreRuns.{at_board};
ghost use Rattle.told_walks.specs.Asked.{most_team};
ghost use Rattle.source_reader.specs.Sources.{IsRead};
ghost use Rattle.rule_definitions.specs.Acceptance.{Accepts};
ghost use Rattle.checked_run.specs.declared.running.Told.{Told};
ghost use Rattle.checked_run.specs.Coarrays.{names_of};
ghost use Rattle.checked_run.specs.Reports.{IsRunOf};
ghost use Rattle.trace_forms.specs.Files.{Written};
ghost use Rattle.lawful_texts.specs.Ranges.{IsInRange};

/// What a run writes with its trace is written for that trace: the text of the report of a run of a program that a
/// source is read and accepted as, on 1 to 256 images, where fewer than 2 to the 32nd teams are made, and where the
/// numbers of its entries are those of the code's types and its arrivals at ALLOCATE and DEALLOCATE name declared
/// coarrays. By `law_written_once` it is written for no other trace.
pub fn law_run_is_written()
    ensures { (bytes : List ℕ) (x : tree.Program) (p : Program) (told : Told) (fails_at : ℕ → ℕ) (r : Report) (shown : Shown)
        → IsRead bytes x → Accepts x p → IsRunOf p told fails_at r → shown.trace ≡ true → 1 ≤ told.images → told.images ≤ 256
        → length (teams_after told.images (at_board r.trace.entries)) ≤ most_team → Each (IsInRange (names_of p)) r.trace.entries
        → Written (report_text shown r) (names_of p) r.trace.entries }
{}

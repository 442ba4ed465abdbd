//! The law of reports and limits of stamps.

ghost use Rattle.std.specs.Prelude.{◌<◌, ◌≤◌, ◌+◌, ◌*◌, ◌/◌, ◌^◌, ℕ, length};
ghost use Rattle.caf_events.specs.declared.ask.Ask.{Ask};
ghost use Rattle.caf_report.specs.declared.report.Report.{Report};
ghost use Rattle.checked_run.specs.Coarrays.{coarrays_of};
ghost use Rattle.checked_run.specs.Reports.{IsRunOf};
ghost use Rattle.checked_run.specs.declared.running.Told.{Told};
ghost use Rattle.checked_tree.specs.Statements.{Program};
ghost use Rattle.program_walks.specs.Runs.{program_rules, program_begins};
ghost use Rattle.stamp_limits.specs.StampLimits.{IsStampLimitDue, HasNoStampLimit, IsStampLimitedRun};

/// No report's trace has a limit of stamps, and where its images times twice its words and four are below 2 to the 62nd
/// none is due before whatever an image asks behind it: the steps of a run are so many at most, since each that goes on
/// records words and gets one lock at most, and no stamp is above their number. The command's numbers, 1 to 256 images
/// with an equal share of 16,777,216 words each, are far below.
pub fn law_no_report_meets_a_stamp_limit()
    ensures few { (p : Program) (told : Told) (fails_at : ℕ → ℕ) (report : Report) → IsRunOf p told fails_at report
        → length report.trace.entries ≤ told.images * (2 * told.words + 4) }
    ensures none { (p : Program) (told : Told) (fails_at : ℕ → ℕ) (report : Report) → IsRunOf p told fails_at report → HasNoStampLimit report.trace.entries }
    ensures run { (p : Program) (told : Told) (fails_at : ℕ → ℕ) (report : Report) → IsRunOf p told fails_at report
        → told.images * (2 * told.words + 4) < 2 ^ 62
        → IsStampLimitedRun (program_rules p told.limit) (program_begins p (coarrays_of p) told.images fails_at told.words) report.trace.entries }
    ensures next { (p : Program) (told : Told) (fails_at : ℕ → ℕ) (report : Report) → IsRunOf p told fails_at report
        → told.images * (2 * told.words + 4) < 2 ^ 62
        → (i : ℕ) (ask : Ask) → IsStampLimitDue report.trace.entries i ask → ⊥ }
    ensures shares { (images : ℕ) → images ≤ 256 → images * (2 * (16777216 / images) + 4) < 2 ^ 62 }
{}

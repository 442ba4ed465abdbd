//! The laws of stuck runs.

ghost use Rattle.std.specs.Prelude.{◌≡◌, ◌≤◌, ℕ, List, true, Option, length};
ghost use Rattle.std.specs.List.{list_all};
ghost use Rattle.caf_report.specs.declared.report.End.TheVariants as ends;
ghost use Rattle.caf_report.specs.declared.report.Report.{Report};
ghost use Rattle.caf_report.specs.declared.report.Waiting.{Waiting};
ghost use Rattle.checked_tree.specs.Statements.{Program};
ghost use Rattle.object_rules.specs.Cells.{Declared};
ghost use Rattle.object_rules.specs.MemoryRules.{has_first_values};
ghost use Rattle.object_rules.specs.BoardTeams.{teams_after};
ghost use Rattle.core_runs.specs.CoreRuns.{at_board};
ghost use Rattle.told_walks.specs.Asked.{most_team};
ghost use Rattle.next_fits.specs.Known.{IsSound};
ghost use Rattle.program_run.specs.Reports.{IsProgramReport};
ghost use Rattle.wait_reason.specs.Chains.{Close, IsChain};
ghost use Rattle.wait_chain.specs.Reports.{as_waits};
ghost use Rattle.wait_chain.specs.Stuck.{IsStuck};
ghost use Rattle.wait_chain.specs.ToldChains.{IsToldChain};
ghost use Rattle.stuck_reports.specs.Fitting.{AskWhatFits, AskWhatIsKnown};

/// The report of a stuck run of a checked program shows a stuck trace with its waits, where the ask with which each
/// image waits fits: the trace is lawful, and those that wait are the images that have neither stopped nor failed, in
/// rising order, each with an ask that isn't ready. So the chain that the trace tells is the chain of those waits.
pub fn law_stuck_reports()
    ensures stuck { (p : Program) (limit : ℕ) (coarrays : List Declared) (n : ℕ) (fails_at : ℕ → ℕ) (words : ℕ) (order : Option ℕ) (r : Report) (waits : List Waiting)
        → list_all has_first_values coarrays ≡ true → IsProgramReport p limit coarrays n fails_at words order r → r.end ≡ ends.Stuck waits
        → AskWhatFits coarrays n r.trace.entries waits → IsStuck n r.trace.entries (as_waits waits) }
    ensures chain { (p : Program) (limit : ℕ) (coarrays : List Declared) (n : ℕ) (fails_at : ℕ → ℕ) (words : ℕ) (order : Option ℕ) (r : Report) (waits : List Waiting)
        → list_all has_first_values coarrays ≡ true → IsProgramReport p limit coarrays n fails_at words order r → r.end ≡ ends.Stuck waits
        → AskWhatFits coarrays n r.trace.entries waits → (links : List ℕ) (close : Close) → IsToldChain n r.trace.entries (as_waits waits) links close
        → IsChain n r.trace.entries (as_waits waits) links close }
{}

/// So it is where the program is sound, in a run of fewer than 2 to the 32nd teams: the ask of each image fits, but for
/// a write, an arrival at a collective, and a read of a lock or an event, of which nothing is said.
pub fn law_known_stuck_reports()
    ensures { (p : Program) (limit : ℕ) (coarrays : List Declared) (n : ℕ) (fails_at : ℕ → ℕ) (words : ℕ) (order : Option ℕ) (r : Report) (waits : List Waiting)
        → IsSound coarrays p → IsProgramReport p limit coarrays n fails_at words order r → r.end ≡ ends.Stuck waits
        → length (teams_after n (at_board r.trace.entries)) ≤ most_team → AskWhatIsKnown coarrays waits
        → (links : List ℕ) (close : Close) → IsToldChain n r.trace.entries (as_waits waits) links close → IsChain n r.trace.entries (as_waits waits) links close }
{}

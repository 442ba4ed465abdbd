//! The law of stuck runs of accepted programs. It is the contract of a function that does nothing.

ghost use Rattle.std.specs.Prelude.{◌≡◌, ◌<◌, ◌+◌, ◌*◌, ℕ, List, Option};
ghost use Rattle.fortran_tree.specs.Units as units;
ghost use Rattle.caf_report.specs.declared.report.End.TheVariants as ends;
ghost use Rattle.caf_report.specs.declared.report.Report.{Report};
ghost use Rattle.caf_report.specs.declared.report.Waiting.{Waiting};
ghost use Rattle.checked_tree.specs.Statements as checked;
ghost use Rattle.rule_definitions.specs.Acceptance.{Accepts};
ghost use Rattle.told_walks.specs.Asked.{most_team};
ghost use Rattle.program_run.specs.Reports.{IsProgramReport};
ghost use Rattle.checked_run.specs.Coarrays.{coarrays_of};
ghost use Rattle.wait_reason.specs.Chains.{Close, IsChain};
ghost use Rattle.wait_chain.specs.Reports.{as_waits};
ghost use Rattle.wait_chain.specs.ToldChains.{IsToldChain};
ghost use Rattle.stuck_reports.specs.Fitting.{AskWhatIsKnown};

/// The report of a stuck run of an accepted program over its own coarrays, with the command's numbers of images and
/// words, shows why it is stuck: the chain that its trace tells is the chain of its images' waits, where none waits
/// with a write, an arrival at a collective, or a read of a lock or an event, of which nothing is said.
pub fn law_accepted_stuck_reports()
    ensures { (x : units.Program) (p : checked.Program) → Accepts x p
        → (limit n : ℕ) (fails_at : ℕ → ℕ) (words : ℕ) (order : Option ℕ) (r : Report) (waits : List Waiting) → n * (2 * words + 4) < most_team
        → IsProgramReport p limit (coarrays_of p) n fails_at words order r → r.end ≡ ends.Stuck waits → AskWhatIsKnown (coarrays_of p) waits
        → (links : List ℕ) (close : Close) → IsToldChain n r.trace.entries (as_waits waits) links close → IsChain n r.trace.entries (as_waits waits) links close }
{}

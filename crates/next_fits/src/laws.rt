//! The law that asks fit, for all asks together of which that is known.

ghost use Rattle.std.specs.Prelude.{◌≡◌, ◌≤◌, ℕ, true, List, length};
ghost use Rattle.caf_events.specs.declared.ask.Ask.{Ask};
ghost use Rattle.caf_events.specs.declared.event.Entry.{Entry};
ghost use Rattle.checked_tree.specs.Statements as checked;
ghost use Rattle.object_rules.specs.BoardTeams.{teams_after};
ghost use Rattle.object_rules.specs.Cells.{Declared};
ghost use Rattle.core_runs.specs.CoreRuns.{IsCoreRun, at_board};
ghost use Rattle.core_runs.specs.Waits.{IsWaiting};
ghost use Rattle.wait_reason.specs.WaitsFor.{is_fit_after};
ghost use Rattle.program_walks.specs.Runs.{program_rules, program_begins};
ghost use Rattle.told_walks.specs.Asked.{most_team};
ghost use Rattle.walk_laws.specs.Fits.{StandsAt};
ghost use Rattle.next_fits.specs.Known.{IsSound, is_known};

/// In a core run of a sound program, of fewer than 2 to the 32nd teams, the next ask of each image fits, but for a write,
/// an arrival at a collective, and a read of a lock or an event, of which nothing is said.
pub fn law_next_ask_fits()
    ensures { (p : checked.Program) (limit : ℕ) (coarrays : List Declared) (n : ℕ) (fails_at : ℕ → ℕ) (words : ℕ) (t : List Entry) → IsSound coarrays p
        → IsCoreRun (program_rules p limit) (program_begins p coarrays n fails_at words) t → length (teams_after n (at_board t)) ≤ most_team
        → (i : ℕ) (a : Ask) → StandsAt p limit coarrays n fails_at words t i a → is_known coarrays a ≡ true → is_fit_after coarrays n t i a ≡ true }
{}

/// So does the ask with which an image waits.
pub fn law_next_wait_fits()
    ensures { (p : checked.Program) (limit : ℕ) (coarrays : List Declared) (n : ℕ) (fails_at : ℕ → ℕ) (words : ℕ) (t : List Entry) → IsSound coarrays p
        → IsCoreRun (program_rules p limit) (program_begins p coarrays n fails_at words) t → length (teams_after n (at_board t)) ≤ most_team
        → (i line : ℕ) (a : Ask) → IsWaiting (program_rules p limit) (program_begins p coarrays n fails_at words) t i line a → is_known coarrays a ≡ true → is_fit_after coarrays n t i a ≡ true }
{}

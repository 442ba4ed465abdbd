//! Laws of the runs of accepted programs over their own coarrays. Each is the contract of a function that does nothing.

ghost use Rattle.std.specs.Prelude.{◌≡◌, ◌<◌, ◌≤◌, ◌+◌, ◌*◌, ◌/◌, ℕ, true, List, length};
ghost use Rattle.fortran_tree.specs.Units as units;
ghost use Rattle.caf_events.specs.declared.ask.Ask.{Ask};
ghost use Rattle.caf_events.specs.declared.event.Entry.{Entry};
ghost use Rattle.checked_tree.specs.Statements as checked;
ghost use Rattle.rule_definitions.specs.Acceptance.{Accepts};
ghost use Rattle.object_rules.specs.BoardTeams.{teams_after};
ghost use Rattle.object_rules.specs.Cells.{Declared};
ghost use Rattle.core_runs.specs.CoreRuns.{IsCoreRun, at_board};
ghost use Rattle.core_runs.specs.Waits.{IsWaiting};
ghost use Rattle.program_walks.specs.Runs.{program_rules, program_begins};
ghost use Rattle.wait_reason.specs.WaitsFor.{is_fit_after};
ghost use Rattle.told_walks.specs.Asked.{most_team};
ghost use Rattle.walk_laws.specs.Fits.{StandsAt, AreDeclaredBy};
ghost use Rattle.fit_laws.specs.Asks.{AllocatesAllocatable};
ghost use Rattle.next_fits.specs.Known.{IsSound, is_known};
ghost use Rattle.checked_run.specs.Coarrays.{coarrays_of};

/// The statements of an accepted program allocate and deallocate no coarray but those that are declared ALLOCATABLE,
/// and so does END TEAM (ISO/IEC 1539-1:2018, 9.7.1.1, 9.7.3.1, 11.1.5), where the memories have the coarrays that the
/// program declares.
pub fn law_accepted_allocates()
    ensures { (x : units.Program) (p : checked.Program) → Accepts x p → (coarrays : List Declared) → AreDeclaredBy p coarrays
        → AllocatesAllocatable coarrays p }
{}

/// An accepted program is sound over its own coarrays.
pub fn law_accepted_own_is_sound()
    ensures { (x : units.Program) (p : checked.Program) → Accepts x p → IsSound (coarrays_of p) p }
{}

/// A core run of a checked program has fewer than 2 to the 32nd teams where its images times twice its limit of
/// recorded words and four are fewer: each team but the initial one has an own entry at the control board. The
/// command's numbers are far below: 1 to 256 images with an equal share of 16,777,216 words each.
pub fn law_run_has_few_teams()
    ensures few { (p : checked.Program) (limit : ℕ) (coarrays : List Declared) (n : ℕ) (fails_at : ℕ → ℕ) (words : ℕ) (t : List Entry)
        → IsCoreRun (program_rules p limit) (program_begins p coarrays n fails_at words) t → n * (2 * words + 4) < most_team
        → length (teams_after n (at_board t)) ≤ most_team }
    ensures shares { (n : ℕ) → n ≤ 256 → n * (2 * (16777216 / n) + 4) < most_team }
{}

/// So in a core run of an accepted program over its own coarrays, with such numbers, the next ask of each image fits,
/// but for a write, an arrival at a collective, and a read of a lock or an event, of which nothing is said.
pub fn law_accepted_next_ask_fits()
    ensures { (x : units.Program) (p : checked.Program) → Accepts x p
        → (limit n : ℕ) (fails_at : ℕ → ℕ) (words : ℕ) (t : List Entry) → n * (2 * words + 4) < most_team
        → IsCoreRun (program_rules p limit) (program_begins p (coarrays_of p) n fails_at words) t
        → (i : ℕ) (a : Ask) → StandsAt p limit (coarrays_of p) n fails_at words t i a → is_known (coarrays_of p) a ≡ true
        → is_fit_after (coarrays_of p) n t i a ≡ true }
{}

/// So does the ask with which an image waits.
pub fn law_accepted_next_wait_fits()
    ensures { (x : units.Program) (p : checked.Program) → Accepts x p
        → (limit n : ℕ) (fails_at : ℕ → ℕ) (words : ℕ) (t : List Entry) → n * (2 * words + 4) < most_team
        → IsCoreRun (program_rules p limit) (program_begins p (coarrays_of p) n fails_at words) t
        → (i line : ℕ) (a : Ask)
        → IsWaiting (program_rules p limit) (program_begins p (coarrays_of p) n fails_at words) t i line a
        → is_known (coarrays_of p) a ≡ true → is_fit_after (coarrays_of p) n t i a ≡ true }
{}

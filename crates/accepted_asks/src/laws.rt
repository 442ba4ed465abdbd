//! Laws of what accepted programs ask in a run. Each is the contract of a function that does nothing.

ghost use Rattle.std.specs.Prelude.{◌≡◌, ℕ, true, List};
ghost use Rattle.std.specs.List.{list_all};
ghost use Rattle.fortran_tree.specs.Units as units;
ghost use Rattle.caf_events.specs.declared.ask.Ask.{Ask};
ghost use Rattle.caf_events.specs.declared.event.Entry.{Entry};
ghost use Rattle.checked_tree.specs.Statements as checked;
ghost use Rattle.rule_definitions.specs.Acceptance.{Accepts};
ghost use Rattle.coarray_tables.specs.Fits.{are_fit};
ghost use Rattle.program_tables.specs.Tables.{tables_of};
ghost use Rattle.object_rules.specs.Cells.{Declared};
ghost use Rattle.object_rules.specs.MemoryRules.{has_first_values};
ghost use Rattle.core_runs.specs.CoreRuns.{IsCoreRun};
ghost use Rattle.core_runs.specs.Waits.{IsWaiting};
ghost use Rattle.program_walks.specs.Runs.{program_rules, program_begins};
ghost use Rattle.wait_reason.specs.WaitsFor.{is_fit_after};
ghost use Rattle.walk_laws.specs.Fits.{StandsAt, AreDeclaredBy};
ghost use Rattle.fit_laws.specs.Asks.{AllocatesAllocatable};
ghost use Rattle.accepted_cells.specs.Contents.{HoldWhatIsDeclared};
ghost use Rattle.memory_fits.specs.CellAsks.{is_of_cell, is_of_own_event};
ghost use Rattle.next_fits.specs.Known.{IsSound};

/// In a core run of an accepted program, whose coarrays hold what it declares and fit an image, each next ask of an
/// image with LOCK, UNLOCK, EVENT POST or an atomic subroutine fits (11.6.7, 11.6.10, 16.5), and each one with EVENT
/// WAIT or EVENT_QUERY (11.6.8, 16.9.72).
pub fn law_accepted_cell_asks_fit()
    ensures named { (x : units.Program) (p : checked.Program) → Accepts x p → (limit : ℕ) (coarrays : List Declared) (n : ℕ) (fails_at : ℕ → ℕ) (words : ℕ) (t : List Entry)
        → HoldWhatIsDeclared p coarrays → are_fit 0 (tables_of p).coarrays ≡ true → list_all has_first_values coarrays ≡ true → IsCoreRun (program_rules p limit) (program_begins p coarrays n fails_at words) t
        → (i : ℕ) (a : Ask) → StandsAt p limit coarrays n fails_at words t i a → is_of_cell a ≡ true → is_fit_after coarrays n t i a ≡ true }
    ensures own { (x : units.Program) (p : checked.Program) → Accepts x p → (limit : ℕ) (coarrays : List Declared) (n : ℕ) (fails_at : ℕ → ℕ) (words : ℕ) (t : List Entry)
        → HoldWhatIsDeclared p coarrays → AreDeclaredBy p coarrays → are_fit 0 (tables_of p).coarrays ≡ true → list_all has_first_values coarrays ≡ true
        → IsCoreRun (program_rules p limit) (program_begins p coarrays n fails_at words) t
        → (i : ℕ) (a : Ask) → StandsAt p limit coarrays n fails_at words t i a → is_of_own_event a ≡ true → is_fit_after coarrays n t i a ≡ true }
{}

/// So the ask with which an image waits fits: its LOCK, and its EVENT WAIT.
pub fn law_accepted_cell_waits_fit()
    ensures named { (x : units.Program) (p : checked.Program) → Accepts x p → (limit : ℕ) (coarrays : List Declared) (n : ℕ) (fails_at : ℕ → ℕ) (words : ℕ) (t : List Entry)
        → HoldWhatIsDeclared p coarrays → are_fit 0 (tables_of p).coarrays ≡ true → list_all has_first_values coarrays ≡ true → IsCoreRun (program_rules p limit) (program_begins p coarrays n fails_at words) t
        → (i line : ℕ) (a : Ask) → IsWaiting (program_rules p limit) (program_begins p coarrays n fails_at words) t i line a → is_of_cell a ≡ true → is_fit_after coarrays n t i a ≡ true }
    ensures own { (x : units.Program) (p : checked.Program) → Accepts x p → (limit : ℕ) (coarrays : List Declared) (n : ℕ) (fails_at : ℕ → ℕ) (words : ℕ) (t : List Entry)
        → HoldWhatIsDeclared p coarrays → AreDeclaredBy p coarrays → are_fit 0 (tables_of p).coarrays ≡ true → list_all has_first_values coarrays ≡ true
        → IsCoreRun (program_rules p limit) (program_begins p coarrays n fails_at words) t
        → (i line : ℕ) (a : Ask) → IsWaiting (program_rules p limit) (program_begins p coarrays n fails_at words) t i line a → is_of_own_event a ≡ true → is_fit_after coarrays n t i a ≡ true }
{}

/// An accepted program is sound, where the memories have what it declares and what it allocates is ALLOCATABLE.
pub fn law_accepted_is_sound()
    ensures { (x : units.Program) (p : checked.Program) → Accepts x p → (coarrays : List Declared) → HoldWhatIsDeclared p coarrays → AreDeclaredBy p coarrays → are_fit 0 (tables_of p).coarrays ≡ true
        → list_all has_first_values coarrays ≡ true → AllocatesAllocatable coarrays p → IsSound coarrays p }
{}

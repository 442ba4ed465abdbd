//! Laws of the next read in a run, and of the next ask for a lock, an event or an atom. Each is the contract of a function that does nothing.

ghost use Rattle.std.specs.Prelude.{◌≡◌, ℕ, true, List, slice_get};
ghost use Rattle.std.specs.List.{list_all};
ghost use Rattle.trace_theory.specs.Entries.{Each};
ghost use Rattle.caf_base.specs.declared.place.ImageNo.{ImageNo};
ghost use Rattle.caf_base.specs.declared.span.Span.{Span};
ghost use Rattle.caf_events.specs.declared.ask.Ask.{Ask};
ghost use Rattle.caf_events.specs.declared.ask.Ask.TheVariants as asks;
ghost use Rattle.caf_events.specs.declared.event.Entry.{Entry};
ghost use Rattle.checked_tree.specs.Statements as checked;
ghost use Rattle.tree_meaning.specs.Start.{own_coarrays};
ghost use Rattle.made_code.specs.Ranks.{IsRankedProgram};
ghost use Rattle.object_rules.specs.Cells.{Declared};
ghost use Rattle.object_rules.specs.MemoryRules.{has_first_values, holds, is_values};
ghost use Rattle.core_runs.specs.CoreRuns.{IsCoreRun};
ghost use Rattle.core_runs.specs.Waits.{IsWaiting};
ghost use Rattle.program_walks.specs.Runs.{program_rules, program_begins};
ghost use Rattle.wait_reason.specs.WaitsFor.{is_fit_after};
ghost use Rattle.walk_laws.specs.Fits.{StandsAt, AreDeclaredBy};
ghost use Rattle.cell_walks.specs.Fitting.{IsSmall};
ghost use Rattle.cell_statements.specs.Typed.{IsTypedProgram};
ghost use Rattle.cell_statements.specs.Reading.{ProgramReads};
ghost use Rattle.memory_fits.specs.CellAsks.{is_of_cell, is_of_own_event};

/// In a core run of a checked program whose ranks are right, and whose statements on locks, events and atoms name ones
/// that are declared, each next ask of an image with LOCK, UNLOCK, EVENT POST or an atomic subroutine fits (11.6.7,
/// 11.6.10, 16.5); and so does one with EVENT WAIT or EVENT_QUERY, which is for a cell of its own coarray that is there
/// (11.6.8, 16.9.72).
pub fn law_cell_asks_fit()
    ensures named { (p : checked.Program) (limit : ℕ) (coarrays : List Declared) (n : ℕ) (fails_at : ℕ → ℕ) (words : ℕ) (t : List Entry) → list_all has_first_values coarrays ≡ true
        → IsCoreRun (program_rules p limit) (program_begins p coarrays n fails_at words) t → IsRankedProgram p → IsTypedProgram coarrays p → Each IsSmall (own_coarrays p)
        → (i : ℕ) (a : Ask) → StandsAt p limit coarrays n fails_at words t i a → is_of_cell a ≡ true → is_fit_after coarrays n t i a ≡ true }
    ensures own { (p : checked.Program) (limit : ℕ) (coarrays : List Declared) (n : ℕ) (fails_at : ℕ → ℕ) (words : ℕ) (t : List Entry) → list_all has_first_values coarrays ≡ true
        → IsCoreRun (program_rules p limit) (program_begins p coarrays n fails_at words) t → IsRankedProgram p → IsTypedProgram coarrays p → Each IsSmall (own_coarrays p)
        → AreDeclaredBy p coarrays → (i : ℕ) (a : Ask) → StandsAt p limit coarrays n fails_at words t i a → is_of_own_event a ≡ true → is_fit_after coarrays n t i a ≡ true }
{}

/// So the ask with which an image waits fits: its LOCK, and its EVENT WAIT.
pub fn law_cell_waits_fit()
    ensures named { (p : checked.Program) (limit : ℕ) (coarrays : List Declared) (n : ℕ) (fails_at : ℕ → ℕ) (words : ℕ) (t : List Entry) → list_all has_first_values coarrays ≡ true
        → IsCoreRun (program_rules p limit) (program_begins p coarrays n fails_at words) t → IsRankedProgram p → IsTypedProgram coarrays p → Each IsSmall (own_coarrays p)
        → (i line : ℕ) (a : Ask) → IsWaiting (program_rules p limit) (program_begins p coarrays n fails_at words) t i line a → is_of_cell a ≡ true → is_fit_after coarrays n t i a ≡ true }
    ensures own { (p : checked.Program) (limit : ℕ) (coarrays : List Declared) (n : ℕ) (fails_at : ℕ → ℕ) (words : ℕ) (t : List Entry) → list_all has_first_values coarrays ≡ true
        → IsCoreRun (program_rules p limit) (program_begins p coarrays n fails_at words) t → IsRankedProgram p → IsTypedProgram coarrays p → Each IsSmall (own_coarrays p)
        → AreDeclaredBy p coarrays → (i line : ℕ) (a : Ask) → IsWaiting (program_rules p limit) (program_begins p coarrays n fails_at words) t i line a
        → is_of_own_event a ≡ true → is_fit_after coarrays n t i a ≡ true }
{}

/// Each next read of an image fits (9.6), where its coarray is declared and holds values: it is of a section of no more
/// cells than an access may have, at an image of the run; and so does the read with which an image waits. Where each
/// coarray that the program reads is such, the next read's is.
pub fn law_reads_fit()
    ensures asks { (p : checked.Program) (limit : ℕ) (coarrays : List Declared) (n : ℕ) (fails_at : ℕ → ℕ) (words : ℕ) (t : List Entry) → list_all has_first_values coarrays ≡ true
        → IsCoreRun (program_rules p limit) (program_begins p coarrays n fails_at words) t → IsRankedProgram p → IsTypedProgram coarrays p → Each IsSmall (own_coarrays p)
        → (i : ℕ) (owner : ImageNo) (span : Span) → StandsAt p limit coarrays n fails_at words t i (asks.Read owner span) → holds is_values (slice_get coarrays span.coarray) ≡ true
        → is_fit_after coarrays n t i (asks.Read owner span) ≡ true }
    ensures waits { (p : checked.Program) (limit : ℕ) (coarrays : List Declared) (n : ℕ) (fails_at : ℕ → ℕ) (words : ℕ) (t : List Entry) → list_all has_first_values coarrays ≡ true
        → IsCoreRun (program_rules p limit) (program_begins p coarrays n fails_at words) t → IsRankedProgram p → IsTypedProgram coarrays p → Each IsSmall (own_coarrays p)
        → (i line : ℕ) (owner : ImageNo) (span : Span) → IsWaiting (program_rules p limit) (program_begins p coarrays n fails_at words) t i line (asks.Read owner span)
        → holds is_values (slice_get coarrays span.coarray) ≡ true → is_fit_after coarrays n t i (asks.Read owner span) ≡ true }
    ensures values { (p : checked.Program) (limit : ℕ) (coarrays : List Declared) (n : ℕ) (fails_at : ℕ → ℕ) (words : ℕ) (t : List Entry) → list_all has_first_values coarrays ≡ true
        → IsCoreRun (program_rules p limit) (program_begins p coarrays n fails_at words) t → IsRankedProgram p → IsTypedProgram coarrays p → Each IsSmall (own_coarrays p)
        → ProgramReads (λ k. holds is_values (slice_get coarrays k)) p
        → (i : ℕ) (owner : ImageNo) (span : Span) → StandsAt p limit coarrays n fails_at words t i (asks.Read owner span) → holds is_values (slice_get coarrays span.coarray) ≡ true }
{}

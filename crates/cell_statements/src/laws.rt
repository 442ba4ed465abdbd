//! Laws of statements that read coarrays, and of those on locks, events and atoms. Each is the contract of a function that does nothing.

ghost use Rattle.std.specs.Prelude.{◌≡◌, ℕ, Bool, true, List};
ghost use Rattle.walk_theory.specs.Syntax.{body_of};
ghost use Rattle.checked_tree.specs.Statements as checked;
ghost use Rattle.object_rules.specs.Cells.{Declared};
ghost use Rattle.core_runs.specs.Beginnings.{IsOneOf};
ghost use Rattle.tree_meaning.specs.Forms.{bodies};
ghost use Rattle.made_code.specs.Ranks.{IsRankedProgram};
ghost use Rattle.cell_walks.specs.Fitting.{StepsFit};
ghost use Rattle.cell_statements.specs.Typed.{IsTypedProgram};
ghost use Rattle.cell_statements.specs.Reading.{ProgramReads};

/// The blocks of a program fit, its main program and its procedures, where its ranks are right, each statement on a lock,
/// an event or an atom names one, and each coarray that it reads may be read.
pub fn law_blocks_fit()
    ensures { (p : checked.Program) (coarrays : List Declared) (readable : ℕ → Bool) (n me : ℕ) → IsRankedProgram p → IsTypedProgram coarrays p → ProgramReads readable p → IsOneOf n me
        → (k : ℕ) → StepsFit n me coarrays readable (body_of (bodies p) k) }
{}

/// Where each coarray may be read, each program reads those alone that may be read.
pub fn law_all_may_be_read()
    ensures { (readable : ℕ → Bool) → ((k : ℕ) → readable k ≡ true) → (p : checked.Program) → ProgramReads readable p }
{}

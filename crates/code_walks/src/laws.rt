//! What ties a checked program to the code that the machine runs. Each law is the contract of a function that does
//! nothing.

ghost use Rattle.std.specs.Prelude.{◌≡◌, ℕ};
ghost use Rattle.caf_events.specs.Answers.{Answers};
ghost use Rattle.trace_theory.specs.Equivalence.{SameWalks};
ghost use Rattle.walk_theory.specs.Code.{code_step};
ghost use Rattle.walk_theory.specs.Made.{program_code};
ghost use Rattle.walk_theory.specs.Programs.{SameCore};
ghost use Rattle.checked_tree.specs.Statements as checked;
ghost use Rattle.image_acts.specs.Acts.{ask, end_program};
ghost use Rattle.image_acts.specs.Meaning.{image_language};
ghost use Rattle.image_code.specs.Code.{Whole, code_of};
ghost use Rattle.image_machine.specs.Start as machine;
ghost use Rattle.tree_meaning.specs.Forms.{bodies};
ghost use Rattle.tree_meaning.specs.Start as tree;
ghost use Rattle.program_tables.specs.Tables.{tables_of};

/// Code with the tables of a program begins as the program does, on each image of any number of them (ISO/IEC
/// 1539-1:2018, 5.3.5).
pub fn law_code_starts_as_its_program()
    ensures { (p : checked.Program) (code : Whole) → code.program.tables ≡ tables_of p
        → (me images : ℕ) → machine.first_core code me images ≡ tree.first_core p me images }
{}

/// Code that a program was made into, with the program's tables, has its walks from where the machine begins, on each
/// image of any number of them and with any limit: it asks what the program asks, at the same lines, with the same
/// cores and counts, and the other way round.
pub fn law_code_has_walks_of_its_program()
    ensures { (p : checked.Program) (code : Whole) → code_of code.program ≡ program_code (ask end_program) p.end_line (bodies p) → code.program.tables ≡ tables_of p
        → (limit me images : ℕ)
        → SameWalks Answers SameCore SameCore (tree.walk_step p limit) (tree.start_of p me images) (code_step image_language (code_of code.program) limit) (machine.first_state code me images) }
{}

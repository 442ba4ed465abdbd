//! Laws of the locks, events and atoms of accepted programs. Each is the contract of a function that does nothing.

ghost use Rattle.std.specs.Prelude.{◌≡◌, true, List, [], Some, map};
ghost use Rattle.trace_theory.specs.Entries.{Each};
ghost use Rattle.fortran_tree.specs.Statements as actions;
ghost use Rattle.fortran_tree.specs.Units as units;
ghost use Rattle.checked_tree.specs.Statements.{Program, Statements};
ghost use Rattle.rule_definitions.specs.Statements.{Position, judged_statements};
ghost use Rattle.rule_definitions.specs.Units.{program_judged};
ghost use Rattle.object_rules.specs.Cells.{Declared};
ghost use Rattle.cell_statements.specs.Typed.{AreTyped, IsTypedProgram};
ghost use Rattle.image_code.specs.declared.tables.Coarray.{Coarray};
ghost use Rattle.coarray_tables.specs.Fits.{are_fit};
ghost use Rattle.program_tables.specs.Tables.{tables_of};
ghost use Rattle.tree_meaning.specs.Start.{own_coarrays};
ghost use Rattle.cell_walks.specs.Fitting.{IsSmall};
ghost use Rattle.accepted_cells.specs.Scopes.{AreHeld};
ghost use Rattle.accepted_cells.specs.Contents.{holding, content, HoldWhatIsDeclared};

/// Where nothing breaks in a block, each statement on a lock, an event or an atom in the block that it stands for names
/// a declared one: in a scope whose coarrays are declared with their types.
pub fn law_block_is_typed()
    ensures { (coarrays : List Declared) (here : Position) → AreHeld coarrays here.scope → (block : actions.Statements) (x : Statements)
        → (judged_statements here block).breaks ≡ [] → (judged_statements here block).meaning ≡ Some x → AreTyped coarrays x }
{}

/// A program that breaks no rule stands for one whose statements on locks, events and atoms name coarrays of such
/// (11.6.7, 11.6.8, 11.6.10, 16.5, 16.9.72), where the coarrays hold what the program declares.
pub fn law_accepted_is_typed()
    ensures { (p : units.Program) (c : Program) → (program_judged p).breaks ≡ [] → (program_judged p).meaning ≡ Some c → (coarrays : List Declared) → HoldWhatIsDeclared c coarrays → IsTypedProgram coarrays c }
{}

/// The coarrays with which an image begins are small, where the tables of the program fit an image.
pub fn law_own_coarrays_are_small()
    ensures { (p : Program) → are_fit 0 (tables_of p).coarrays ≡ true → Each IsSmall (own_coarrays p) }
{}

/// Coarrays that are made of a program's tables hold what it declares, where each holds what its own entry says.
pub fn law_tables_hold()
    ensures { (made : Coarray → Declared) → ((c : Coarray) → content (made c) ≡ holding c) → (p : Program) → HoldWhatIsDeclared p (map made (tables_of p).coarrays) }
{}

//! The laws of names. Each is the contract of a function that does nothing.

ghost use Rattle.std.specs.Prelude.{ℕ, List};
ghost use Rattle.fortran_tree.specs.Units as tree;
ghost use Rattle.checked_tree.specs.Statements.{Program};
ghost use Rattle.source_reader.specs.Sources.{IsRead};
ghost use Rattle.rule_definitions.specs.Acceptance.{Accepts};
ghost use Rattle.checked_run.specs.Coarrays.{names_of};
ghost use Rattle.trace_forms.specs.Names.{AreNames};
ghost use Rattle.trace_names.specs.Entities.{DeclareNames, variable_names};

/// What a source is read as declares names: each entity of the main program has one of letters, digits and underscores
/// (ISO/IEC 1539-1:2018, 6.2.2).
pub fn law_read_declares_names()
    ensures { (bytes : List ℕ) (x : tree.Program) → IsRead bytes x → DeclareNames x.body.declarations }
{}

/// The variables of the main program of an accepted program have names that differ (19.3.1), where its declarations
/// declare names: a name that is declared twice breaks a rule.
pub fn law_variables_have_names()
    ensures { (x : tree.Program) (p : Program) → DeclareNames x.body.declarations → Accepts x p → AreNames (variable_names p) }
{}

/// So the coarrays of a program that a source is read and accepted as have names that differ, each of bytes that the
/// text of a trace can show. All coarrays are the main program's: one in a procedure breaks a rule.
pub fn law_coarrays_have_names()
    ensures { (bytes : List ℕ) (x : tree.Program) (p : Program) → IsRead bytes x → Accepts x p → AreNames (names_of p) }
{}

//! Laws of what the rules accept and the machine asks. Each is the contract of a function that does nothing.

ghost use Rattle.fortran_tree.specs.Units as units;
ghost use Rattle.checked_tree.specs.Statements.{Program};
ghost use Rattle.rule_definitions.specs.Acceptance.{Accepts};
ghost use Rattle.program_tables.specs.Tables.{tables_of};
ghost use Rattle.checked_run.specs.Doing.{CanBegin, DoesAll};
ghost use Rattle.checked_run.specs.Runnable.{CanRun, lines_of};

/// The coarrays that an accepted program begins with are ones that an image can have: three dimensions and codimensions
/// at most, cobounds of kind 4, none empty, and no more than 65,536 cells in all.
pub fn law_accepted_coarrays_are_few()
    ensures { (x : units.Program) (p : Program) → Accepts x p → CanBegin (tables_of p) }
{}

/// The machine does each act of the code of an accepted program: its operators are of kinds of integers, and no section
/// has more than three dimensions.
pub fn law_accepted_acts_are_done()
    ensures { (x : units.Program) (p : Program) → Accepts x p → DoesAll (lines_of p) }
{}

/// The machine can run each program that the rules accept: it does each act of its code, its coarrays are few, and each
/// static one of values has a first value of its kind for each of its cells.
pub fn law_accepted_can_run()
    ensures { (x : units.Program) (p : Program) → Accepts x p → CanRun p }
{}

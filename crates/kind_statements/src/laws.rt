//! Laws of statements. Each is the contract of a function that does nothing.

ghost use Rattle.kind_statements.specs.Laws.{AssignmentLaw, ProgramLaw};

/// An assignment suits, wherever its body runs: what it writes to a coarray is of the coarray's kind, it leaves nothing
/// on the operands, and each variable holds a value of its kind as before.
pub fn law_assignments_suit()
    ensures { AssignmentLaw }
{}

/// Each body of a program suits, wherever it runs, whose parts are of the ranks, types and kinds that their places want,
/// where calls of intrinsic subroutines do.
pub fn law_bodies_suit()
    ensures { ProgramLaw }
{}

//! The acts of assignments against what they do.

ghost use Rattle.direct_statements.specs.Laws.{AssignmentLaw};

/// The acts of an assignment come to what the definition says, at every line, for each reply and from each core with
/// room for array values: the same asks in the same states, the same fault, or the variables that it leaves, with
/// nothing on the stack. Nothing is claimed of the evaluation cells that its statement frees behind it, nor of a tree
/// that broke a rule (`unsaid`).
pub fn law_assignment_defines_its_variable()
    ensures { AssignmentLaw }
{}

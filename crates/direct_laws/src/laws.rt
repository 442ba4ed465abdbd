//! The acts of an expression against its direct definition.

ghost use Rattle.direct_laws.specs.Laws.{ExpressionLaw};

/// The acts of a covered expression come to what the definition says, at every line, for each reply and from each core
/// with room for array values: the same asks in the same states, the same fault, or its value put down over
/// what was there, with the variables that the evaluation leaves. Nothing is claimed of a reply that doesn't answer its
/// ask, nor of a tree that broke a rule (`unsaid`).
pub fn law_expression_has_its_value()
    ensures { ExpressionLaw }
{}

//! Laws of expressions. Each is the contract of a function that does nothing.

ghost use Rattle.kind_expressions.specs.Laws.{ExpressionLaw};

/// Each expression of a body, whose parts are of the types and kinds that their places want, leaves a number or an array
/// of its kind on the operands that stand there, wherever the body runs; and the variables of all frames hold values of
/// their kinds as before.
pub fn law_expressions_are_of_their_kinds()
    ensures { ExpressionLaw }
{}

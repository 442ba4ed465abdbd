//! Laws of the readers of expressions that no caller runs.

ghost use Rattle.expr_reader.specs.Laws.{ExpressionsAnswered, ExpressionsOnce, LongestAnswered, LongestOnce};

/// The reader of expressions answers each text of tokens as the grammar wants; and no text is two expressions.
pub fn expressions_exactly()
    ensures answered { ExpressionsAnswered }
    ensures once { ExpressionsOnce }
{}

/// The reader of expressions gives the longest expression that begins a text, or where and why there is none; and each
/// text has one such answer.
pub fn longest_expressions()
    ensures answered { LongestAnswered }
    ensures once { LongestOnce }
{}

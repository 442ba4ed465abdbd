//! The acts of PRINT against what it does.

ghost use Rattle.direct_output.specs.Laws.{PrintLaw};

/// The acts of a PRINT come to what the definition says, at every line, for each reply and from each core with room for
/// array values and for its literals: the same asks in the same states, its text last, or the same fault. Nothing is
/// claimed of the evaluation cells that its statement frees behind it, nor of a tree that broke a rule (`unsaid`).
pub fn law_print_says_its_text()
    ensures { PrintLaw }
{}

//! Laws of the readers of statements that no caller runs.

ghost use Rattle.statement_reader.specs.Laws.{PartsAnswered, PartsOnce};

/// The reader of each form of parts answers each text of tokens as the grammar wants; and no text is two parts of one
/// form.
pub fn parts_exactly()
    ensures answered { PartsAnswered }
    ensures once { PartsOnce }
{}

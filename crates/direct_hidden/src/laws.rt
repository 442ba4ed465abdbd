//! Evaluations, whatever stands in hidden cells.

ghost use Rattle.direct_hidden.specs.Laws.{HiddenLaw};

/// With any cells behind the variables of its frame an expression, an assignment or a PRINT makes the same asks, for
/// each reply, comes to the same value, fault or end, and leaves these cells, and how many variables the frame has and
/// how many evaluation cells were in use where it began, as they are. Of the program's own functions it is a premise.
pub fn law_hidden_cells_mean_nothing()
    ensures { HiddenLaw }
{}

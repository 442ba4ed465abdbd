//! The parts of statements against what the statements do.

ghost use Rattle.direct_released.specs.Laws.{StatementLaw};

/// The parts of an assignment, a PRINT, a STOP, an ERROR STOP or a FAIL IMAGE in the walk do what the statement does,
/// at every line, for each reply and from each core with room for array values in which no evaluation cell is in use
/// but those of the callers, and leave it so. Nothing is claimed of a tree that broke a rule (`unsaid`).
pub fn law_statement_does_what_it_means()
    ensures { StatementLaw }
{}

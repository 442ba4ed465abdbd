//! Laws of parts that no caller runs.

ghost use Rattle.program_tree.specs.Laws.{PartsMayFollow};

/// The parts that a file is read as may follow one another.
pub fn parts_may_follow()
    ensures { PartsMayFollow }
{}

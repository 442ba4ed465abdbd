//! Laws of the reader of files that no caller runs.

ghost use Rattle.program_reader.specs.Laws.{ProgramsAreParts, PartsOfOne, RestsAnswered, FoundIsProgram, FaultIsRefusal, ProgramsOnce};

/// A program is the sequence of its parts, and of no other program; the rest of a file is answered exactly from each
/// place on, and so a whole file as the grammar of programs wants it; and no file is two programs.
pub fn programs_exactly()
    ensures parts { ProgramsAreParts }
    ensures one { PartsOfOne }
    ensures rests { RestsAnswered }
    ensures found { FoundIsProgram }
    ensures refused { FaultIsRefusal }
    ensures once { ProgramsOnce }
{}

//! Laws of laid tokens that no caller runs.

ghost use Rattle.fortran_layout.specs.Lines.{LaidLinesFit};
ghost use Rattle.fortran_layout.specs.Spelling.{SignsAreSpelled};

/// No line has more than 1,000 bytes, where no token has a line feed and each name and number is short enough for a
/// line.
pub fn laid_lines_fit()
    ensures { LaidLinesFit }
{}

/// Each sign is laid in a spelling that the table of forms has for it.
pub fn signs_are_spelled()
    ensures { SignsAreSpelled }
{}

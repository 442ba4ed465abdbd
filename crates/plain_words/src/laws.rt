//! The law of lines that are written token by token. It is the contract of a function that does nothing.

ghost use Rattle.std.specs.Prelude.{◌≡◌, List, map};
ghost use Rattle.std.specs.List.{AllByRecursion};
ghost use Rattle.fortran_lines.specs.declared.stmt.Stmt.{Stmt};
ghost use Rattle.fortran_lines.specs.Lines.{statements_of};
ghost use Rattle.fortran_lines.specs.Statements.{placed_bytes};
ghost use Rattle.token_words.specs.Words.{AreWords};
ghost use Rattle.plain_lines.specs.PlainLines.{ended};
ghost use Rattle.plain_words.specs.Written.{Written, line_of, IsWrittenLine, tokens_of_lines};

/// The statements of such lines are cut into the tokens with which they are written, each at its line and column, and
/// the end of its statement behind the last of a line.
pub fn law_written_lines()
    ensures { (lines : List (List Written)) → AllByRecursion IsWrittenLine lines
        → (ss : List Stmt) × (map placed_bytes ss ≡ statements_of (ended (map line_of lines))) × AreWords ss (tokens_of_lines 1 lines) }
{}

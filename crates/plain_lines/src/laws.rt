//! The law of plain lines. It is the contract of a function that does nothing.

ghost use Rattle.std.specs.Prelude.{◌≡◌, ℕ, List, []};
ghost use Rattle.std.specs.List.{AllByRecursion};
ghost use Rattle.fortran_lines.specs.PlacedBytes.{numbered};
ghost use Rattle.fortran_lines.specs.Lines.{statements_of};
ghost use Rattle.fortran_lines.specs.Faults.{faults_of};
ghost use Rattle.plain_lines.specs.PlainLines.{IsPlainLine, ended};

/// The statements of plain lines are these lines, each with the places of its bytes, and no line breaks a rule.
pub fn law_plain_lines()
    ensures joined { (ls : List (List ℕ)) → AllByRecursion IsPlainLine ls → statements_of (ended ls) ≡ numbered 1 ls }
    ensures unbroken { (ls : List (List ℕ)) → AllByRecursion IsPlainLine ls → faults_of (ended ls) ≡ [] }
{}

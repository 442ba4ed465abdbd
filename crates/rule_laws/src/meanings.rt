//! The law of meanings: a program that breaks nothing stands for a checked program.

ghost use Rattle.fortran_tree.specs.Units.{Program};
ghost use Rattle.rule_laws.specs.Meanings.{IsUnbroken, IsAccepted};

/// A program that breaks no rule is accepted as a checked program.
pub fn law_unbroken_has_meaning()
    ensures { (p : Program) → IsUnbroken p → IsAccepted p }
{}

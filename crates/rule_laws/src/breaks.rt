//! The laws of breaks: which of them is told, and which numbers they have.

ghost use Rattle.std.specs.Prelude.{◌≡◌, ◌↔◌, ℕ, [], Some, None};
ghost use Rattle.caf_base.specs.declared.place.Pos.{Pos};
ghost use Rattle.fortran_tree.specs.Units.{Program};
ghost use Rattle.rule_definitions.specs.declared.broken.Broken.{Broken};
ghost use Rattle.rule_definitions.specs.Acceptance.{Breaks, first_break};
ghost use Rattle.rule_definitions.specs.Units.{program_judged};
ghost use Rattle.rule_laws.specs.Firsts.{IsFirstBreak};
ghost use Rattle.rule_laws.specs.Rules.{IsRule};

/// What the checker tells is a break of the program, and none comes before it; where it tells none there is none.
pub fn law_first_break_is_a_break()
    ensures first { (p : Program) (b : Broken) → first_break p ≡ Some b → IsFirstBreak p b }
    ensures none { (p : Program) → (first_break p ≡ None) ↔ ((program_judged p).breaks ≡ []) }
{}

/// Each break is of a rule from 20 to 59 (docs/use/REFUSALS.md).
pub fn law_rules_are_numbered()
    ensures { (p : Program) (r : ℕ) (at : Pos) → Breaks p r at → IsRule r }
{}

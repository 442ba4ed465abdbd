//! Laws of code that isn't refused. Each is the contract of a function that does nothing.

ghost use Rattle.std.specs.Prelude.{ℕ, List};
ghost use Rattle.walk_theory.specs.Good.{IsGood};
ghost use Rattle.image_code.specs.Code.{IsWhole};
ghost use Rattle.image_code.specs.Levels.{Part, HasLevels};
ghost use Rattle.image_code.specs.Table.{lines_of};
ghost use Rattle.image_code.specs.declared.shape.Height.{Height};
ghost use Rattle.image_code.specs.declared.step.Step.{Step};

/// Each of its jumps goes on, or to a count: so it can't go on for ever between two counts.
pub fn law_whole_code_is_good()
    ensures { (texts : List (List ℕ)) (steps : List Step) (lines : List ℕ) (highest : Height) → IsWhole steps highest → IsGood (lines_of texts steps lines) }
{}

/// There is a height for each place that a path reaches, on each part of the stack: where so much stands, each step
/// takes no more, and each place where it goes on has what it leaves.
pub fn law_whole_code_has_levels()
    ensures { (part : Part) (texts : List (List ℕ)) (steps : List Step) (lines : List ℕ) (highest : Height) → IsWhole steps highest
        → HasLevels part texts steps lines highest }
{}

//! Conditions, DO bounds and STOP codes, and teams: rules 39 and 51.

ghost use Rattle.std.specs.Prelude.{◌≡◌, IfOk};
ghost use Rattle.std.specs.Option.{option_map};
ghost use Rattle.checked_tree.specs.ExpressionViews.{expression};
ghost use Rattle.rule_definitions.specs.Parts as rules;
ghost use Rattle.part_rules.specs.Views.{placed};

use caf_base::refusal::NoMemory;
use checked_tree::expr::TypedExpr;
use part_rules::judged::Judged;
use part_rules::operand::{team_of, wanted};
use part_rules::part::Part;
use rule_definitions::rule;
use rule_definitions::taken::Taken;

/// A condition, which is a logical scalar (11.1.8.1, 11.1.7.2): rule 39 for another type, rule 37 for an array.
pub fn condition(part: Part) -> Result<Judged<TypedExpr>, NoMemory>
    ensures breaks { IfOk result (λ j. j.breaks.items ≡ (rules.condition (placed part)).breaks) }
    ensures meaning { IfOk result (λ j. option_map expression j.meaning ≡ (rules.condition (placed part)).meaning) }
{
    wanted(Taken::Logicals, part)
}

/// A DO bound (11.1.7.2) or a STOP code (11.4), which is an integer scalar: rule 39 for another type, rule 37 for an
/// array.
pub fn bound_or_code(part: Part) -> Result<Judged<TypedExpr>, NoMemory>
    ensures breaks { IfOk result (λ j. j.breaks.items ≡ (rules.bound_or_code (placed part)).breaks) }
    ensures meaning { IfOk result (λ j. option_map expression j.meaning ≡ (rules.bound_or_code (placed part)).meaning) }
{
    wanted(Taken::Integers, part)
}

/// A scalar of TEAM_TYPE (9.6, 11.6.6, 16.9): rule 51 for another type, rule 37 for an array.
pub fn team(part: Part) -> Result<Judged<TypedExpr>, NoMemory>
    ensures breaks { IfOk result (λ j. j.breaks.items ≡ (rules.team (placed part)).breaks) }
    ensures meaning { IfOk result (λ j. option_map expression j.meaning ≡ (rules.team (placed part)).meaning) }
{
    team_of(rule::TEAM, part)
}

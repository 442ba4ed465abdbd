//! Assignment statements (10.2.1).

ghost use Rattle.std.specs.Prelude.{◌≡◌, ◌++◌, IfOk, None, cond};
ghost use Rattle.std.specs.Option.{option_map};
ghost use Rattle.checked_tree.specs.ExpressionViews.{expression};
ghost use Rattle.checked_tree.specs.StatementViews.{statement_form};
ghost use Rattle.fortran_tree.specs.ExpressionViews.{designator as variable_written, expression as written};
ghost use Rattle.part_rules.specs.Views.{judgement, placed as part_seen};
ghost use Rattle.rule_definitions.specs.Actions as rules;
ghost use Rattle.rule_definitions.specs.Expressions.{placed};
ghost use Rattle.rule_definitions.specs.Judgements.{both, then, unless};
ghost use Rattle.branch_rules.specs.Sites.{site as seen};
ghost use Rattle.assignment_rules.specs.Assignments.{assigned_to, is_target, joined_sides, sides_of as pair, sides_seen};

use crate::assigned::{Sides, assigned};
use crate::definable::is_definable;
use crate::target::judge_target;
use branch_rules::site::Site;
use caf_base::place::Pos;
use caf_base::refusal::NoMemory;
use checked_tree::expr::TypedExpr;
use checked_tree::statement::StatementForm;
use expr_rules::expr::judge_part;
use fortran_tree::expr::{Designator, Expr};
use part_rules::judged::{Judged, are_none, joined, ruled};
use part_rules::part::Part;
use rule_definitions::rule;
use shared_rules::form::is_listed;
use std::alloc::Global;

// Whether a value is a list of images.
fn is_listed_value(value: &Option<TypedExpr>) -> bool
    ensures { result ≡ rules.is_listed_value (option_map expression value.now) }
{
    match value {
        Some(value) => is_listed(value),
        None => false,
    }
}

// Whether nothing is said of what may be defined: it may, or the value is a list of images or breaks a rule.
fn is_unsaid(site: Site<'_>, target: &Option<TypedExpr>, value: &Judged<TypedExpr>) -> bool
    ensures { result ≡ is_target (seen site.entry) (option_map expression target.now) (judgement expression value.now) }
{
    let Some(target) = target else {
        return true;
    };
    if !are_none(value.breaks.as_slice()) {
        return true;
    }
    if is_definable(site, target) {
        return true;
    }
    is_listed_value(&value.meaning)
}

fn sides_of(target: Option<TypedExpr>, value: Option<TypedExpr>) -> Option<Sides>
    ensures { option_map sides_seen result ≡ both pair (option_map expression target) (option_map expression value) }
{
    let Some(target) = target else {
        drop(value);
        return None;
    };
    let Some(value) = value else {
        drop(target);
        return None;
    };
    Some(Sides { target, value })
}

// The two sides of an assignment, where both stand for something.
fn both_sides(
    target: Judged<TypedExpr>,
    value: Judged<TypedExpr>,
) -> Result<Judged<Sides>, NoMemory>
    ensures breaks { IfOk result (λ j. j.breaks.items ≡ target.breaks.items ++ value.breaks.items) }
    ensures meaning { IfOk result (λ j. option_map sides_seen j.meaning ≡ both pair (option_map expression target.meaning) (option_map expression value.meaning)) }
{
    let Judged {
        breaks,
        meaning: variable,
    } = target;
    let Judged {
        breaks: further,
        meaning,
    } = value;
    joined(breaks, further, sides_of(variable, meaning))
}

// An assignment by its two sides, but for the rule on what may be defined.
fn assigned_sides(
    alloc: Global,
    site: Site<'_>,
    sides: Judged<Sides>,
    at: Pos,
    value_at: Pos,
) -> Result<Judged<StatementForm>, NoMemory>
    ensures breaks { IfOk result (λ j. j.breaks.items ≡ (then (judgement sides_seen sides) (assigned_to (seen site.entry) at value_at)).breaks) }
    ensures meaning { IfOk result (λ j. option_map statement_form j.meaning ≡ (then (judgement sides_seen sides) (assigned_to (seen site.entry) at value_at)).meaning) }
{
    let Judged { breaks, meaning } = sides;
    let Some(sides) = meaning else {
        return Ok(Judged {
            breaks,
            meaning: None,
        });
    };
    let Judged {
        breaks: further,
        meaning,
    } = assigned(alloc, site, sides, at, value_at)?;
    joined(breaks, further, meaning)
}

// An assignment but for the rule on what may be defined.
fn judge_sides(
    alloc: Global,
    site: Site<'_>,
    target: Judged<TypedExpr>,
    value: Part,
    at: Pos,
) -> Result<Judged<StatementForm>, NoMemory>
    ensures breaks { IfOk result (λ j. j.breaks.items ≡ (joined_sides (seen site.entry) (judgement expression target) at (part_seen value)).breaks) }
    ensures meaning { IfOk result (λ j. option_map statement_form j.meaning ≡ (joined_sides (seen site.entry) (judgement expression target) at (part_seen value)).meaning) }
{
    let Part {
        judged,
        at: value_at,
        ..
    } = value;
    let sides = both_sides(target, judged)?;
    assigned_sides(alloc, site, sides, at, value_at)
}

// An assignment, with rule 32 at what may not be defined.
fn judge_defined(
    alloc: Global,
    site: Site<'_>,
    target: Judged<TypedExpr>,
    value: Part,
    at: Pos,
) -> Result<Judged<StatementForm>, NoMemory>
    ensures breaks { IfOk result (λ j. j.breaks.items ≡ (joined_sides (seen site.entry) (judgement expression target) at (part_seen value)).breaks ++ unless (is_target (seen site.entry) (option_map expression target.meaning) (judgement expression value.judged)) 32 at) }
    ensures meaning { IfOk result (λ j. option_map statement_form j.meaning ≡ cond (is_target (seen site.entry) (option_map expression target.meaning) (judgement expression value.judged)) (joined_sides (seen site.entry) (judgement expression target) at (part_seen value)).meaning None) }
{
    let is_unsaid = is_unsaid(site, &target.meaning, &value.judged);
    let judged = judge_sides(alloc, site, target, value, at)?;
    ruled(judged, is_unsaid, rule::ASSIGNMENT, at)
}

// An assignment by what was found of its two sides.
fn judge_both(
    alloc: Global,
    site: Site<'_>,
    target: Judged<TypedExpr>,
    value: Part,
    at: Pos,
) -> Result<Judged<StatementForm>, NoMemory>
    ensures breaks { IfOk result (λ j. j.breaks.items ≡ (rules.assignment (seen site.entry) (judgement expression target) at (part_seen value)).breaks) }
    ensures meaning { IfOk result (λ j. option_map statement_form j.meaning ≡ (rules.assignment (seen site.entry) (judgement expression target) at (part_seen value)).meaning) }
{
    let judged = judge_defined(alloc, site, target, value, at)?;
    Ok(judged)
}

/// The assignment of a value to a variable, in a statement at this place.
pub fn judge_assignment(
    alloc: Global,
    site: Site<'_>,
    variable: &Designator,
    value: &Expr,
    at: Pos,
) -> Result<Judged<StatementForm>, NoMemory>
    ensures breaks { IfOk result (λ j. j.breaks.items ≡ (rules.assignment (seen site.entry) (rules.left_side (seen site.entry).scope (variable_written variable.now)) at (placed (seen site.entry).scope (written value.now))).breaks) }
    ensures meaning { IfOk result (λ j. option_map statement_form j.meaning ≡ (rules.assignment (seen site.entry) (rules.left_side (seen site.entry).scope (variable_written variable.now)) at (placed (seen site.entry).scope (written value.now))).meaning) }
{
    let part = judge_part(alloc, site.scope, value)?;
    let target = judge_target(alloc, site.scope, variable)?;
    let judged = judge_both(alloc, site, target, part, at)?;
    Ok(judged)
}

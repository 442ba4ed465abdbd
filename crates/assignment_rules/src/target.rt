//! The left side of an assignment: a variable, and no procedure.

ghost use Rattle.std.specs.Prelude.{◌≡◌, IfOk, None, cond};
ghost use Rattle.std.specs.Option.{option_map};
ghost use Rattle.checked_tree.specs.ExpressionViews.{expression};
ghost use Rattle.expr_rules.specs.Brackets.{refused_breaks};
ghost use Rattle.fortran_tree.specs.ExpressionViews.{designator as variable_written, maybe_image_selector};
ghost use Rattle.rule_definitions.specs.Actions as rules;
ghost use Rattle.assignment_rules.specs.Targets.{parts_breaks, procedure_target};

use caf_base::place::Pos;
use caf_base::refusal::NoMemory;
use checked_tree::expr::TypedExpr;
use expr_rules::bracket::breaks_in_all;
use expr_rules::expr::{judge_brackets, judge_designator, judge_selector};
use expr_rules::place::is_procedure;
use fortran_tree::expr::{Designator, Selector};
use part_rules::designator::Selection;
use part_rules::judged::{Judged, add_all, are_none, note_unless};
use rule_definitions::broken::Broken;
use rule_definitions::rule;
use scope_table::scope::Scope;
use std::alloc::Global;

// What breaks in the brackets and in the selector of a designator.
#[tactic(auto, using(fortran_tree::specs::ExpressionViews::designator_is))]
fn breaks_in_parts(
    alloc: Global,
    scope: &Scope<'_>,
    variable: &Designator,
) -> Result<Vec<Broken>, NoMemory>
    ensures { IfOk result (λ v. v.items ≡ parts_breaks scope.now (variable_written variable.now)) }
{
    let Selection { judged, .. } = judge_selector(alloc, scope, &variable.selector)?;
    let Judged {
        breaks: further,
        meaning,
    } = judged;
    drop(meaning);
    let actuals = judge_brackets(alloc, scope, variable.subscripts.as_slice())?;
    let mut breaks = breaks_in_all(alloc, actuals)?;
    add_all(&mut breaks, further)?;
    Ok(breaks)
}

// The rule that a procedure breaks as a left side: 34 where it has an image selector (9.6), else 47.
#[tactic(auto, using(fortran_tree::specs::ExpressionViews::image_selector_is))]
fn procedure_rule(selector: &Option<Selector>) -> u8
    ensures { result ≡ cond (rules.is_selected (maybe_image_selector selector.now)) 34 47 }
{
    match selector {
        Some(_) => rule::NO_COARRAY,
        None => rule::PROCEDURE_NAME,
    }
}

// What breaks this rule, around parts of which these are broken.
fn refused_around(breaks: Vec<Broken>, rule: u8, at: Pos) -> Result<Judged<TypedExpr>, NoMemory>
    ensures breaks { IfOk result (λ j. j.breaks.items ≡ refused_breaks breaks.items rule at) }
    ensures meaning { IfOk result (λ j. j.meaning ≡ None) }
{
    let mut all = breaks;
    let is_broken = !are_none(all.as_slice());
    note_unless(&mut all, is_broken, rule, at)?;
    Ok(Judged {
        breaks: all,
        meaning: None,
    })
}

// A procedure as a left side (10.2.1.2).
#[tactic(auto, using(crate::proofs::Forms::procedure_laws))]
fn judge_procedure(
    alloc: Global,
    scope: &Scope<'_>,
    variable: &Designator,
) -> Result<Judged<TypedExpr>, NoMemory>
    ensures breaks { IfOk result (λ j. j.breaks.items ≡ (procedure_target scope.now (variable_written variable.now)).breaks) }
    ensures meaning { IfOk result (λ j. option_map expression j.meaning ≡ (procedure_target scope.now (variable_written variable.now)).meaning) }
{
    let breaks = breaks_in_parts(alloc, scope, variable)?;
    refused_around(breaks, procedure_rule(&variable.selector), variable.name.at)
}

/// The left side of an assignment: rule 47 for a procedure, rule 34 for one with an image selector.
#[tactic(auto, using(crate::proofs::Forms::left_side_by))]
pub fn judge_target(
    alloc: Global,
    scope: &Scope<'_>,
    variable: &Designator,
) -> Result<Judged<TypedExpr>, NoMemory>
    ensures breaks { IfOk result (λ j. j.breaks.items ≡ (rules.left_side scope.now (variable_written variable.now)).breaks) }
    ensures meaning { IfOk result (λ j. option_map expression j.meaning ≡ (rules.left_side scope.now (variable_written variable.now)).meaning) }
{
    if is_procedure(scope.denotes(variable.name.text.as_slice())) {
        return judge_procedure(alloc, scope, variable);
    }
    judge_designator(alloc, scope, variable)
}

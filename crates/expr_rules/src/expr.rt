//! The recursion over expressions.

ghost use Rattle.std.specs.Prelude.{◌≡◌, IfOk, map};
ghost use Rattle.std.specs.Option.{option_map};
ghost use Rattle.checked_tree.specs.ExpressionViews.{expression, optional_expression};
ghost use Rattle.fortran_tree.specs.ExpressionViews as tree;
ghost use Rattle.rule_definitions.specs.Expressions as rules;
ghost use Rattle.rule_definitions.specs.Parts as parts;
ghost use Rattle.part_rules.specs.Views.{judgement, placed};
ghost use Rattle.part_rules.specs.Brackets.{actual_seen};
ghost use Rattle.specifier_rules.specs.Views.{written};
ghost use Rattle.expr_rules.specs.Chains.{chain_judged};
ghost use Rattle.expr_rules.specs.Selections.{selection};

use crate::designated::designated;
use crate::link::linked;
use crate::named::{with_keyword, with_name};
use crate::place::{names_procedure, place};
use crate::procedure::referenced;
use crate::selector::{no_selection, selected};
use crate::subscript::{Bound, Ends, bound, triplet_at};
use caf_base::place::Pos;
use caf_base::refusal::NoMemory;
use checked_tree::expr::TypedExpr;
use fortran_tree::expr::{
    Argument, Designator, Expr, Link, Operator, Selector, Specifier, Subscript,
};
use part_rules::bracket::{Actual, Item};
use part_rules::constructor::constructor;
use part_rules::designator::Selection;
use part_rules::judged::{Judged, fine};
use part_rules::literal::logical;
use part_rules::named::number;
use part_rules::operator::{binary, parenthesized, prefix};
use part_rules::part::Part;
use scope_table::scope::Scope;
use specifier_rules::specifier::Specified;
use std::alloc::Global;

/// An expression in a scope.
#[cycle(judge)]
#[tactic(auto, using(crate::proofs::Items::chain_laws))]
pub fn judge(alloc: Global, scope: &Scope<'_>, expr: &Expr) -> Result<Judged<TypedExpr>, NoMemory>
    ensures breaks { IfOk result (λ j. j.breaks.items ≡ (rules.judged scope.now (tree.expression expr.now)).breaks) }
    ensures meaning { IfOk result (λ j. option_map expression j.meaning ≡ (rules.judged scope.now (tree.expression expr.now)).meaning) }
{
    match expr {
        Expr::Number { value, kind, at } => number(alloc, scope, kind, *value, *at),
        Expr::Logical { value, .. } => Ok(fine(alloc, logical(*value))),
        Expr::Designator(designator) => judge_designator(alloc, scope, designator),
        Expr::FunctionReference {
            function,
            arguments,
        } => {
            let actuals = judge_arguments(alloc, scope, arguments.as_slice())?;
            let denoted = scope.denotes(function.text.as_slice());
            referenced(alloc, scope, denoted, function.at, actuals)
        }
        Expr::Parenthesized { inner, .. } => {
            let part = judge_part(alloc, scope, inner)?;
            parenthesized(alloc, part)
        }
        Expr::ArrayConstructor { values, .. } => {
            let parts = judge_list(alloc, scope, values.as_slice())?;
            constructor(alloc, parts)
        }
        Expr::Prefix {
            operator,
            operand,
            ..
        } => {
            let part = judge_part(alloc, scope, operand)?;
            prefix(alloc, *operator, part)
        }
        Expr::Binary {
            operator,
            left,
            right,
            links,
            at,
        } => {
            let left_part = judge_part(alloc, scope, left)?;
            let first = judge_operator(alloc, scope, *operator, left_part, right)?;
            judge_links(alloc, scope, first, *at, links.as_slice())
        }
    }
}

/// An expression with its place, and whether it is the bare name of a procedure.
#[cycle(judge)]
pub fn judge_part(alloc: Global, scope: &Scope<'_>, expr: &Expr) -> Result<Part, NoMemory>
    ensures { IfOk result (λ p. placed p ≡ rules.placed scope.now (tree.expression expr.now)) }
{
    let judged = judge(alloc, scope, expr)?;
    Ok(Part {
        judged,
        at: place(expr),
        is_procedure: names_procedure(scope, expr),
    })
}

/// An operator behind its left operand, with its right one.
#[cycle(judge)]
fn judge_operator(
    alloc: Global,
    scope: &Scope<'_>,
    operator: Operator,
    left: Part,
    right: &Expr,
) -> Result<Judged<TypedExpr>, NoMemory>
    ensures { IfOk result (λ j. judgement expression j ≡ parts.binary operator (placed left) (rules.placed scope.now (tree.expression right.now))) }
{
    match judge_part(alloc, scope, right) {
        Ok(part) => binary(alloc, operator, left, part),
        Err(e) => {
            drop(left);
            Err(e)
        }
    }
}

/// The further operators of a chain that begins at this place, behind an operator with its operands.
#[cycle(judge)]
fn judge_links(
    alloc: Global,
    scope: &Scope<'_>,
    first: Judged<TypedExpr>,
    at: Pos,
    links: &[Link],
) -> Result<Judged<TypedExpr>, NoMemory>
    ensures breaks { IfOk result (λ j. j.breaks.items ≡ (chain_judged scope.now (judgement expression first) at links.now).breaks) }
    ensures meaning { IfOk result (λ j. option_map expression j.meaning ≡ (chain_judged scope.now (judgement expression first) at links.now).meaning) }
{
    let mut all = first;
    for link in links {
        let operand = match judge_part(alloc, scope, &link.operand) {
            Ok(part) => part,
            Err(e) => {
                drop(all);
                return Err(e);
            }
        };
        all = linked(alloc, link.operator, all, at, operand)?;
    }
    Ok(all)
}

/// A designator.
#[cycle(judge)]
#[tactic(auto, using(fortran_tree::specs::ExpressionViews::designator_is))]
pub fn judge_designator(
    alloc: Global,
    scope: &Scope<'_>,
    designator: &Designator,
) -> Result<Judged<TypedExpr>, NoMemory>
    ensures breaks { IfOk result (λ j. j.breaks.items ≡ (rules.judged_designator scope.now (tree.designator designator.now)).breaks) }
    ensures meaning { IfOk result (λ j. option_map expression j.meaning ≡ (rules.judged_designator scope.now (tree.designator designator.now)).meaning) }
{
    let selection = judge_selector(alloc, scope, &designator.selector)?;
    let actuals = judge_brackets(alloc, scope, designator.subscripts.as_slice())?;
    let denoted = scope.denotes(designator.name.text.as_slice());
    designated(
        alloc,
        scope,
        denoted,
        designator.name.at,
        actuals,
        selection,
    )
}

/// An image selector (9.6), where one is written.
#[cycle(judge)]
#[tactic(auto, using(fortran_tree::specs::ExpressionViews::image_selector_is))]
pub fn judge_selector(
    alloc: Global,
    scope: &Scope<'_>,
    selector: &Option<Selector>,
) -> Result<Selection, NoMemory>
    ensures { IfOk result (λ s. selection s ≡ rules.judged_selector scope.now (tree.maybe_image_selector selector.now)) }
{
    match selector {
        None => Ok(no_selection(alloc)),
        Some(selector) => {
            let specified = judge_specifiers(alloc, scope, selector.specifiers.as_slice())?;
            let parts = judge_list(alloc, scope, selector.cosubscripts.as_slice())?;
            selected(alloc, parts, specified)
        }
    }
}

/// What stands in the brackets behind a name.
#[cycle(judge)]
#[tactic(auto, using(crate::proofs::Items::list_laws))]
pub fn judge_brackets(
    alloc: Global,
    scope: &Scope<'_>,
    subscripts: &[Subscript],
) -> Result<Vec<Actual>, NoMemory>
    ensures { IfOk result (λ v. map actual_seen v.items ≡ rules.judged_brackets scope.now (tree.section_subscripts subscripts.now)) }
{
    let mut actuals = Vec::new(alloc);
    for subscript in subscripts {
        let actual = judge_bracket(alloc, scope, subscript)?;
        actuals.push(actual)?;
    }
    Ok(actuals)
}

/// One item between brackets.
#[cycle(judge)]
#[tactic(auto, using(fortran_tree::specs::ExpressionViews::expression_forms))]
fn judge_bracket(
    alloc: Global,
    scope: &Scope<'_>,
    subscript: &Subscript,
) -> Result<Actual, NoMemory>
    ensures { IfOk result (λ a. actual_seen a ≡ rules.judged_bracket scope.now (tree.section_subscript subscript.now)) }
{
    match subscript {
        Subscript::Element(value) => {
            let part = judge_part(alloc, scope, value)?;
            Ok(Actual {
                keyword: None,
                at: part.at,
                item: Item::Value(part),
            })
        }
        Subscript::Triplet {
            lower,
            upper,
            stride,
            at,
        } => {
            let low = judge_bound(alloc, scope, lower)?;
            let high = match judge_bound(alloc, scope, upper) {
                Ok(bound) => bound,
                Err(e) => {
                    drop(low);
                    return Err(e);
                }
            };
            let ends = Ends { low, high };
            let step = match judge_bound(alloc, scope, stride) {
                Ok(bound) => bound,
                Err(e) => {
                    drop(ends);
                    return Err(e);
                }
            };
            triplet_at(ends, step, *at)
        }
    }
}

/// A bound or a stride of a triplet, where one is written: rule 31 for what is no integer scalar.
#[cycle(judge)]
fn judge_bound(
    alloc: Global,
    scope: &Scope<'_>,
    part: &Option<Box<Expr>>,
) -> Result<Judged<Bound>, NoMemory>
    ensures { IfOk result (λ j. judgement optional_expression j ≡ rules.judged_bound scope.now (tree.optional_expression part.now)) }
{
    match part {
        None => Ok(fine(alloc, None)),
        Some(value) => {
            let part = judge_part(alloc, scope, value)?;
            bound(alloc, part)
        }
    }
}

/// Expressions, each with its place.
#[cycle(judge)]
#[tactic(auto, using(crate::proofs::Items::list_laws))]
fn judge_list(alloc: Global, scope: &Scope<'_>, values: &[Expr]) -> Result<Vec<Part>, NoMemory>
    ensures { IfOk result (λ v. map placed v.items ≡ rules.judged_list scope.now (tree.expressions values.now)) }
{
    let mut parts = Vec::new(alloc);
    for value in values {
        let part = judge_part(alloc, scope, value)?;
        parts.push(part)?;
    }
    Ok(parts)
}

/// The arguments of a reference or a call.
#[cycle(judge)]
#[tactic(auto, using(crate::proofs::Items::list_laws))]
pub fn judge_arguments(
    alloc: Global,
    scope: &Scope<'_>,
    arguments: &[Argument],
) -> Result<Vec<Actual>, NoMemory>
    ensures { IfOk result (λ v. map actual_seen v.items ≡ rules.judged_arguments scope.now (tree.arguments arguments.now)) }
{
    let mut actuals = Vec::new(alloc);
    for argument in arguments {
        let part = judge_part(alloc, scope, &argument.value)?;
        let actual = with_keyword(&argument.keyword, part)?;
        actuals.push(actual)?;
    }
    Ok(actuals)
}

/// The specifiers of a statement or of an image selector.
#[cycle(judge)]
#[tactic(auto, using(crate::proofs::Items::list_laws))]
pub fn judge_specifiers(
    alloc: Global,
    scope: &Scope<'_>,
    specifiers: &[Specifier],
) -> Result<Vec<Specified>, NoMemory>
    ensures { IfOk result (λ v. map written v.items ≡ rules.judged_specifiers scope.now (tree.specifiers specifiers.now)) }
{
    let mut all = Vec::new(alloc);
    for specifier in specifiers {
        let value = judge_part(alloc, scope, &specifier.value)?;
        let specified = with_name(&specifier.name, value)?;
        all.push(specified)?;
    }
    Ok(all)
}

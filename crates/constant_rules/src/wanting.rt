//! Expressions that have no value before the run, whatever values their parts have (10.1.12).

ghost use Rattle.std.specs.Prelude.{◌≡◌, IfOk};
ghost use Rattle.fortran_tree.specs.ExpressionViews as tree;
ghost use Rattle.fortran_tree.specs.ExpressionViews.{expression};
ghost use Rattle.rule_definitions.specs.Declarations as rules;
ghost use Rattle.constant_rules.specs.Wanting.{link_lacks_value};

use crate::inquired::{is_refused_part, is_refused_reference};
use caf_base::refusal::NoMemory;
use fortran_tree::expr::{Argument, Designator, Expr, Link, Selector, Specifier, Subscript};
use scope_table::scope::Scope;
use std::alloc::Global;

/// Whether an expression references a function of the program, or HUGE of what is no variable and isn't constant.
#[cycle(wanting)]
#[tactic(auto, using(fortran_tree::specs::ExpressionViews::expression_forms, crate::proofs::Lacking::chain_lacks_value))]
pub fn lacks_value(alloc: Global, scope: &Scope<'_>, expr: &Expr) -> Result<bool, NoMemory>
    ensures { IfOk result (λ b. b ≡ rules.lacks_value scope.now (expression expr.now)) }
{
    match expr {
        Expr::Number { .. } | Expr::Logical { .. } => Ok(false),
        Expr::Designator(designator) => designator_lacks_value(alloc, scope, designator),
        Expr::FunctionReference {
            function,
            arguments,
        } => {
            if is_refused_reference(alloc, scope, function, arguments)? {
                return Ok(true);
            }
            argument_lacks_value(alloc, scope, arguments)
        }
        Expr::Parenthesized { inner, .. } => lacks_value(alloc, scope, inner),
        Expr::ArrayConstructor { values, .. } => item_lacks_value(alloc, scope, values),
        Expr::Prefix { operand, .. } => lacks_value(alloc, scope, operand),
        Expr::Binary {
            left,
            right,
            links,
            ..
        } => {
            if lacks_value(alloc, scope, left)? {
                return Ok(true);
            }
            if lacks_value(alloc, scope, right)? {
                return Ok(true);
            }
            link_lacks_value(alloc, scope, links)
        }
    }
}

/// Whether the operand of a further operator has none.
#[cycle(wanting)]
fn link_lacks_value(alloc: Global, scope: &Scope<'_>, links: &[Link]) -> Result<bool, NoMemory>
    ensures { IfOk result (λ b. b ≡ link_lacks_value scope.now links.now) }
{
    for link in links {
        if lacks_value(alloc, scope, &link.operand)? {
            return Ok(true);
        }
    }
    Ok(false)
}

/// Whether an argument has none.
#[cycle(wanting)]
fn argument_lacks_value(
    alloc: Global,
    scope: &Scope<'_>,
    arguments: &[Argument],
) -> Result<bool, NoMemory>
    ensures { IfOk result (λ b. b ≡ rules.argument_lacks_value scope.now (tree.arguments arguments.now)) }
{
    for argument in arguments {
        if lacks_value(alloc, scope, &argument.value)? {
            return Ok(true);
        }
    }
    Ok(false)
}

/// Whether an item of a list has none.
#[cycle(wanting)]
fn item_lacks_value(alloc: Global, scope: &Scope<'_>, exprs: &[Expr]) -> Result<bool, NoMemory>
    ensures { IfOk result (λ b. b ≡ rules.item_lacks_value scope.now (tree.expressions exprs.now)) }
{
    for expr in exprs {
        if lacks_value(alloc, scope, expr)? {
            return Ok(true);
        }
    }
    Ok(false)
}

/// Whether a designator, or a function with plain arguments, has none.
#[cycle(wanting)]
#[tactic(auto, using(fortran_tree::specs::ExpressionViews::expression_forms))]
fn designator_lacks_value(
    alloc: Global,
    scope: &Scope<'_>,
    designator: &Designator,
) -> Result<bool, NoMemory>
    ensures { IfOk result (λ b. b ≡ rules.designator_lacks_value scope.now (tree.designator designator.now)) }
{
    if is_refused_part(alloc, scope, &designator.name, &designator.subscripts)? {
        return Ok(true);
    }
    if subscript_lacks_value(alloc, scope, &designator.subscripts)? {
        return Ok(true);
    }
    selector_lacks_value(alloc, scope, &designator.selector)
}

/// Whether one of subscripts has none.
#[cycle(wanting)]
fn subscript_lacks_value(
    alloc: Global,
    scope: &Scope<'_>,
    subscripts: &[Subscript],
) -> Result<bool, NoMemory>
    ensures { IfOk result (λ b. b ≡ rules.subscript_lacks_value scope.now (tree.section_subscripts subscripts.now)) }
{
    for subscript in subscripts {
        if part_lacks_value(alloc, scope, subscript)? {
            return Ok(true);
        }
    }
    Ok(false)
}

/// Whether a subscript, or a part of a triplet, has none.
#[cycle(wanting)]
#[tactic(auto, using(fortran_tree::specs::ExpressionViews::expression_forms))]
fn part_lacks_value(
    alloc: Global,
    scope: &Scope<'_>,
    subscript: &Subscript,
) -> Result<bool, NoMemory>
    ensures { IfOk result (λ b. b ≡ rules.part_lacks_value scope.now (tree.section_subscript subscript.now)) }
{
    match subscript {
        Subscript::Element(expr) => lacks_value(alloc, scope, expr),
        Subscript::Triplet {
            lower,
            upper,
            stride,
            ..
        } => {
            if bound_lacks_value(alloc, scope, lower)? {
                return Ok(true);
            }
            if bound_lacks_value(alloc, scope, upper)? {
                return Ok(true);
            }
            bound_lacks_value(alloc, scope, stride)
        }
    }
}

/// Whether a part that may be missing has none.
#[cycle(wanting)]
fn bound_lacks_value(
    alloc: Global,
    scope: &Scope<'_>,
    bound: &Option<Box<Expr>>,
) -> Result<bool, NoMemory>
    ensures { IfOk result (λ b. b ≡ rules.bound_lacks_value scope.now (tree.optional_expression bound.now)) }
{
    match bound {
        Some(expr) => lacks_value(alloc, scope, expr),
        None => Ok(false),
    }
}

/// Whether a specifier of an image selector has none.
#[cycle(wanting)]
fn specifier_lacks_value(
    alloc: Global,
    scope: &Scope<'_>,
    specifiers: &[Specifier],
) -> Result<bool, NoMemory>
    ensures { IfOk result (λ b. b ≡ rules.specifier_lacks_value scope.now (tree.specifiers specifiers.now)) }
{
    for specifier in specifiers {
        if lacks_value(alloc, scope, &specifier.value)? {
            return Ok(true);
        }
    }
    Ok(false)
}

/// Whether a cosubscript or a specifier of an image selector has none.
#[cycle(wanting)]
#[tactic(auto, using(fortran_tree::specs::ExpressionViews::expression_forms))]
fn selector_lacks_value(
    alloc: Global,
    scope: &Scope<'_>,
    selector: &Option<Selector>,
) -> Result<bool, NoMemory>
    ensures { IfOk result (λ b. b ≡ rules.selector_lacks_value scope.now (tree.maybe_image_selector selector.now)) }
{
    match selector {
        Some(selector) => {
            if item_lacks_value(alloc, scope, &selector.cosubscripts)? {
                return Ok(true);
            }
            specifier_lacks_value(alloc, scope, &selector.specifiers)
        }
        None => Ok(false),
    }
}

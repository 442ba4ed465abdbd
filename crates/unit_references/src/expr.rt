//! The names in expressions.

ghost use Rattle.std.specs.Prelude.{◌≡◌, ◌++◌, OnOk};
ghost use Rattle.fortran_tree.specs.ExpressionViews as view;
ghost use Rattle.unit_references.specs.References as names;
ghost use Rattle.unit_references.specs.Written.{link_names};

use crate::references::References;
use caf_base::refusal::NoMemory;
use fortran_tree::expr::{Argument, Designator, Expr, Link, Selector, Specifier, Subscript};

/// The names in an expression.
#[cycle(expression)]
#[tactic(auto, using(crate::proofs::Behind::expression_laws))]
pub fn add_expr<'a>(refs: &mut References<'a>, expr: &'a Expr) -> Result<(), NoMemory>
    ensures { OnOk result (refs.new ≡ refs.old ++ names.expression (view.expression expr.now)) }
{
    match expr {
        Expr::Number { kind, at, .. } => refs.add_kind(kind, *at),
        Expr::Logical { .. } => Ok(()),
        Expr::Designator(designator) => add_designator(refs, designator),
        Expr::FunctionReference {
            function,
            arguments,
        } => {
            refs.add_name(function)?;
            add_arguments(refs, arguments)
        }
        Expr::Parenthesized { inner, .. } => add_expr(refs, inner),
        Expr::ArrayConstructor { values, .. } => add_exprs(refs, values),
        Expr::Prefix { operand, .. } => add_expr(refs, operand),
        Expr::Binary {
            left,
            right,
            links,
            ..
        } => {
            add_expr(refs, left)?;
            add_expr(refs, right)?;
            add_links(refs, links)
        }
    }
}

/// The names in the operands of further operators.
#[cycle(expression)]
fn add_links<'a>(refs: &mut References<'a>, links: &'a [Link]) -> Result<(), NoMemory>
    ensures { OnOk result (refs.new ≡ refs.old ++ link_names links.now) }
{
    for link in links {
        add_expr(refs, &link.operand)?;
    }
    Ok(())
}

/// The names in several expressions.
#[cycle(expression)]
fn add_exprs<'a>(refs: &mut References<'a>, exprs: &'a [Expr]) -> Result<(), NoMemory>
    ensures { OnOk result (refs.new ≡ refs.old ++ names.expressions (view.expressions exprs.now)) }
{
    for expr in exprs {
        add_expr(refs, expr)?;
    }
    Ok(())
}

/// The names in arguments.
#[cycle(expression)]
pub fn add_arguments<'a>(
    refs: &mut References<'a>,
    arguments: &'a [Argument],
) -> Result<(), NoMemory>
    ensures { OnOk result (refs.new ≡ refs.old ++ names.arguments (view.arguments arguments.now)) }
{
    for argument in arguments {
        add_expr(refs, &argument.value)?;
    }
    Ok(())
}

/// The names in a designator.
#[cycle(expression)]
#[tactic(auto, using(crate::proofs::Behind::expression_laws))]
pub fn add_designator<'a>(
    refs: &mut References<'a>,
    designator: &'a Designator,
) -> Result<(), NoMemory>
    ensures { OnOk result (refs.new ≡ refs.old ++ names.designator (view.designator designator.now)) }
{
    refs.add_name(&designator.name)?;
    add_subscripts(refs, &designator.subscripts)?;
    add_selector(refs, &designator.selector)
}

/// The names in subscripts.
#[cycle(expression)]
fn add_subscripts<'a>(
    refs: &mut References<'a>,
    subscripts: &'a [Subscript],
) -> Result<(), NoMemory>
    ensures { OnOk result (refs.new ≡ refs.old ++ names.section_subscripts (view.section_subscripts subscripts.now)) }
{
    for subscript in subscripts {
        add_subscript(refs, subscript)?;
    }
    Ok(())
}

/// The names in a subscript.
#[cycle(expression)]
#[tactic(auto, using(crate::proofs::Behind::expression_laws))]
fn add_subscript<'a>(refs: &mut References<'a>, subscript: &'a Subscript) -> Result<(), NoMemory>
    ensures { OnOk result (refs.new ≡ refs.old ++ names.section_subscript (view.section_subscript subscript.now)) }
{
    match subscript {
        Subscript::Element(expr) => add_expr(refs, expr),
        Subscript::Triplet {
            lower,
            upper,
            stride,
            ..
        } => {
            add_part(refs, lower)?;
            add_part(refs, upper)?;
            add_part(refs, stride)
        }
    }
}

/// The names in a part of a triplet.
#[cycle(expression)]
#[tactic(auto, using(crate::proofs::Behind::expression_laws))]
fn add_part<'a>(refs: &mut References<'a>, part: &'a Option<Box<Expr>>) -> Result<(), NoMemory>
    ensures { OnOk result (refs.new ≡ refs.old ++ names.optional_expression (view.optional_expression part.now)) }
{
    match part {
        Some(expr) => add_expr(refs, expr),
        None => Ok(()),
    }
}

/// The names in an image selector.
#[cycle(expression)]
#[tactic(auto, using(crate::proofs::Behind::expression_laws))]
fn add_selector<'a>(
    refs: &mut References<'a>,
    selector: &'a Option<Selector>,
) -> Result<(), NoMemory>
    ensures { OnOk result (refs.new ≡ refs.old ++ names.image_selector (view.maybe_image_selector selector.now)) }
{
    match selector {
        Some(selector) => {
            add_exprs(refs, &selector.cosubscripts)?;
            add_specifiers(refs, &selector.specifiers)
        }
        None => Ok(()),
    }
}

/// The names in specifiers.
#[cycle(expression)]
pub fn add_specifiers<'a>(
    refs: &mut References<'a>,
    specifiers: &'a [Specifier],
) -> Result<(), NoMemory>
    ensures { OnOk result (refs.new ≡ refs.old ++ names.specifiers (view.specifiers specifiers.now)) }
{
    for specifier in specifiers {
        add_expr(refs, &specifier.value)?;
    }
    Ok(())
}

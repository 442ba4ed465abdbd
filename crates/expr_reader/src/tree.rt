//! Expressions in memory, made of their parts.

ghost use Rattle.std.specs.Prelude.{◌≡◌, IfOk};
ghost use Rattle.expr_reader.specs.Reading as reading;
ghost use Rattle.fortran_tree.specs.ExpressionViews as view;
ghost use Rattle.fortran_tree.specs.Expressions as tree;

use caf_base::place::Pos;
use fortran_tree::expr::{Expr, Link, Operator, PrefixOperator};
use std::alloc::{AllocError, Global};

/// Where an expression begins.
#[tactic(auto, using(crate::proofs::Chained::tree_laws))]
pub fn place_of(expr: &Expr) -> Pos
    ensures { result ≡ reading.place_of (view.expression expr.now) }
{
    match expr {
        Expr::Number { at, .. }
        | Expr::Logical { at, .. }
        | Expr::Parenthesized { at, .. }
        | Expr::ArrayConstructor { at, .. }
        | Expr::Prefix { at, .. }
        | Expr::Binary { at, .. } => *at,
        Expr::Designator(designator) => designator.name.at,
        Expr::FunctionReference { function, .. } => function.at,
    }
}

/// An operator between two operands.
#[tactic(auto, using(fortran_tree::specs::ExpressionViews::expression_binary))]
fn between(alloc: Global, operator: Operator, left: Expr, right: Expr) -> Result<Expr, AllocError>
    ensures { IfOk result (λ e. view.expression e ≡ tree.binary operator (view.expression left) (view.expression right) (reading.place_of (view.expression left))) }
{
    let at = place_of(&left);
    let left = Box::new(alloc, left)?;
    let right = Box::new(alloc, right)?;
    Ok(Expr::Binary {
        operator,
        left,
        right,
        links: Vec::new(alloc),
        at,
    })
}

/// An operator behind its left operand, and its right one: a link more where operators stand on the left already.
#[tactic(auto, using(fortran_tree::specs::ExpressionViews::expression_binary, fortran_tree::specs::ExpressionViews::chain_pushed, crate::proofs::Chained::chain_place))]
pub fn binary(
    alloc: Global,
    operator: Operator,
    left: Expr,
    right: Expr,
) -> Result<Expr, AllocError>
    ensures { IfOk result (λ e. view.expression e ≡ tree.binary operator (view.expression left) (view.expression right) (reading.place_of (view.expression left))) }
{
    match left {
        Expr::Binary {
            operator: first,
            left,
            right: second,
            mut links,
            at,
        } => {
            links.push(Link {
                operator,
                operand: right,
            })?;
            Ok(Expr::Binary {
                operator: first,
                left,
                right: second,
                links,
                at,
            })
        }
        left => between(alloc, operator, left, right),
    }
}

/// An operator before its operand.
#[tactic(auto, using(fortran_tree::specs::ExpressionViews::expression_prefix))]
pub fn prefix(
    alloc: Global,
    operator: PrefixOperator,
    operand: Expr,
    at: Pos,
) -> Result<Expr, AllocError>
    ensures { IfOk result (λ e. view.expression e ≡ tree.prefix operator (view.expression operand) at) }
{
    Ok(Expr::Prefix {
        operator,
        operand: Box::new(alloc, operand)?,
        at,
    })
}

/// An expression in brackets.
#[tactic(auto, using(fortran_tree::specs::ExpressionViews::expression_parenthesized))]
pub fn parenthesized(alloc: Global, inner: Expr, at: Pos) -> Result<Expr, AllocError>
    ensures { IfOk result (λ e. view.expression e ≡ tree.parenthesized (view.expression inner) at) }
{
    Ok(Expr::Parenthesized {
        inner: Box::new(alloc, inner)?,
        at,
    })
}

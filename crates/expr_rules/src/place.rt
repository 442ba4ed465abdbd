//! Expressions as they are written: their places, and the bare names of procedures.

ghost use Rattle.std.specs.Prelude.{◌≡◌};
ghost use Rattle.std.specs.Option.{option_map};
ghost use Rattle.fortran_tree.specs.Expressions as f;
ghost use Rattle.fortran_tree.specs.ExpressionViews as tree;
ghost use Rattle.rule_definitions.specs.Expressions as rules;
ghost use Rattle.rule_definitions.specs.Names as names;
ghost use Rattle.rule_definitions.specs.Parts.{place_of};
ghost use Rattle.scope_table.specs.Scopes.{denoted as meaning_of};

use caf_base::place::Pos;
use fortran_tree::expr::{Designator, Expr};
use scope_table::scope::{Denoted, Scope};

/// The place of an expression: that of its first token.
#[tactic(auto, using(crate::proofs::Chains::place_laws))]
pub fn place(expr: &Expr) -> Pos
    ensures { result ≡ place_of (tree.expression expr.now) }
{
    match expr {
        Expr::Number { at, .. }
        | Expr::Logical { at, .. }
        | Expr::Parenthesized { at, .. }
        | Expr::ArrayConstructor { at, .. }
        | Expr::Prefix { at, .. }
        | Expr::Binary { at, .. } => *at,
        Expr::Designator(designator) => designator.name.at,
        Expr::FunctionReference { function, .. } => function.at,
    }
}

/// Whether a name stands for a procedure, of the program or intrinsic.
pub fn is_procedure(denoted: Option<Denoted<'_>>) -> bool
    ensures { result ≡ names.is_procedure (option_map meaning_of denoted.entry) }
{
    let Some(denoted) = denoted else {
        return false;
    };
    match denoted {
        Denoted::Subroutine(_)
        | Denoted::Function(_)
        | Denoted::IntrinsicFunction(_)
        | Denoted::IntrinsicSubroutine(_) => true,
        Denoted::Variable(_)
        | Denoted::Constant(_)
        | Denoted::ModuleConstant(_)
        | Denoted::ModuleType(_) => false,
    }
}

/// Whether a designator is the bare name of a procedure.
#[tactic(auto, using(crate::proofs::Names::bare_laws))]
fn is_procedure_name(scope: &Scope<'_>, designator: &Designator) -> bool
    ensures { result ≡ rules.names_procedure scope.now (f.designator (tree.designator designator.now)) }
{
    match designator.subscripts.as_slice() {
        [] => {}
        [_, ..] => return false,
    }
    match &designator.selector {
        None => is_procedure(scope.denotes(designator.name.text.as_slice())),
        Some(_) => false,
    }
}

/// Whether an expression is the bare name of a procedure.
#[tactic(auto, using(crate::proofs::Chains::name_laws))]
pub fn names_procedure(scope: &Scope<'_>, expr: &Expr) -> bool
    ensures { result ≡ rules.names_procedure scope.now (tree.expression expr.now) }
{
    match expr {
        Expr::Designator(designator) => is_procedure_name(scope, designator),
        Expr::Number { .. }
        | Expr::Logical { .. }
        | Expr::FunctionReference { .. }
        | Expr::Parenthesized { .. }
        | Expr::ArrayConstructor { .. }
        | Expr::Prefix { .. }
        | Expr::Binary { .. } => false,
    }
}

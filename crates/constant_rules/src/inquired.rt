//! Of what HUGE may be an inquiry in a constant expression (ISO/IEC 1539-1:2018, 10.1.12): a variable or a constant
//! expression.

ghost use Rattle.std.specs.Prelude.{◌≡◌, ◌||◌, ◌&&◌, not, IfOk};
ghost use Rattle.checked_tree.specs.ExpressionViews.{expression as typed, form};
ghost use Rattle.fortran_tree.specs.ExpressionViews.{arguments as written_arguments, expression, section_subscript, section_subscripts};
ghost use Rattle.rule_definitions.specs.Declarations as rules;
ghost use Rattle.rule_definitions.specs.Names.{denotes};
ghost use Rattle.constant_rules.specs.Wanting.{is_item_inquired, is_object_variable, is_variable};

use crate::named::{names_function, names_huge};
use caf_base::refusal::NoMemory;
use checked_tree::data::Object;
use checked_tree::expr::{ExprForm, TypedExpr};
use constant_values::constancy::is_constant;
use constant_values::value::value_of;
use expr_rules::expr::judge;
use fortran_tree::expr::{Argument, Expr, Subscript};
use fortran_tree::name::Name;
use scope_table::scope::Scope;
use std::alloc::Global;

/// Whether a name with arguments is a function of the program, or HUGE of what is no variable and isn't constant.
pub(crate) fn is_refused_reference(
    alloc: Global,
    scope: &Scope<'_>,
    function: &Name,
    arguments: &[Argument],
) -> Result<bool, NoMemory>
    ensures { IfOk result (λ b. b ≡ (rules.is_function (denotes scope.now function.now.text) || (rules.is_huge (denotes scope.now function.now.text) && not (rules.is_argument_inquired scope.now (written_arguments arguments.now))))) }
{
    if names_function(scope, function) {
        return Ok(true);
    }
    if names_huge(scope, function) {
        let is_inquired = is_argument_inquired(alloc, scope, arguments)?;
        return Ok(!is_inquired);
    }
    Ok(false)
}

/// The same of a name with what stands in its brackets.
pub(crate) fn is_refused_part(
    alloc: Global,
    scope: &Scope<'_>,
    name: &Name,
    subscripts: &[Subscript],
) -> Result<bool, NoMemory>
    ensures { IfOk result (λ b. b ≡ ((rules.is_function (denotes scope.now name.now.text) && rules.has_brackets (section_subscripts subscripts.now)) || (rules.is_huge (denotes scope.now name.now.text) && not (rules.is_subscript_inquired scope.now (section_subscripts subscripts.now))))) }
{
    if is_called(scope, name, subscripts) {
        return Ok(true);
    }
    if names_huge(scope, name) {
        let is_inquired = is_subscript_inquired(alloc, scope, subscripts)?;
        return Ok(!is_inquired);
    }
    Ok(false)
}

// Whether a function of the program is referenced.
fn is_called(scope: &Scope<'_>, name: &Name, subscripts: &[Subscript]) -> bool
    ensures { result ≡ (rules.is_function (denotes scope.now name.now.text) && rules.has_brackets (section_subscripts subscripts.now)) }
{
    if names_function(scope, name) {
        has_brackets(subscripts)
    } else {
        false
    }
}

fn has_brackets(subscripts: &[Subscript]) -> bool
    ensures { result ≡ rules.has_brackets (section_subscripts subscripts.now) }
{
    match subscripts {
        [] => false,
        [_, ..] => true,
    }
}

// Whether HUGE may ask of the first argument.
fn is_argument_inquired(
    alloc: Global,
    scope: &Scope<'_>,
    arguments: &[Argument],
) -> Result<bool, NoMemory>
    ensures { IfOk result (λ b. b ≡ rules.is_argument_inquired scope.now (written_arguments arguments.now)) }
{
    match arguments {
        [] => Ok(true),
        [first, ..] => is_inquired(alloc, scope, &first.value),
    }
}

// Whether HUGE may ask of the first thing in the brackets.
fn is_subscript_inquired(
    alloc: Global,
    scope: &Scope<'_>,
    subscripts: &[Subscript],
) -> Result<bool, NoMemory>
    ensures { IfOk result (λ b. b ≡ rules.is_subscript_inquired scope.now (section_subscripts subscripts.now)) }
{
    match subscripts {
        [] => Ok(true),
        [first, ..] => is_item_inquired(alloc, scope, first),
    }
}

// Whether HUGE may ask of a subscript; nothing is said of a triplet.
#[tactic(auto, using(fortran_tree::specs::ExpressionViews::expression_forms))]
fn is_item_inquired(alloc: Global, scope: &Scope<'_>, item: &Subscript) -> Result<bool, NoMemory>
    ensures { IfOk result (λ b. b ≡ is_item_inquired scope.now (section_subscript item.now)) }
{
    match item {
        Subscript::Element(expr) => is_inquired(alloc, scope, expr),
        Subscript::Triplet { .. } => Ok(true),
    }
}

// Whether HUGE may ask of an expression; nothing is said of one that broke.
fn is_inquired(alloc: Global, scope: &Scope<'_>, expr: &Expr) -> Result<bool, NoMemory>
    ensures { IfOk result (λ b. b ≡ rules.is_inquired scope.now (expression expr.now)) }
{
    let found = judge(alloc, scope, expr)?;
    match &found.meaning {
        Some(meaning) => is_inquirable(alloc, scope, meaning),
        None => Ok(true),
    }
}

// Whether a typed expression is a variable or constant.
fn is_inquirable(alloc: Global, scope: &Scope<'_>, meaning: &TypedExpr) -> Result<bool, NoMemory>
    ensures { IfOk result (λ b. b ≡ rules.is_inquirable scope.now (typed meaning.now)) }
{
    if is_variable(&meaning.form) {
        return Ok(true);
    }
    let value = value_of(alloc, scope, meaning)?;
    Ok(is_constant(&value))
}

// Whether a typed expression is a variable or a part of one.
#[tactic(auto, using(checked_tree::specs::ExpressionViews::typed_forms, crate::proofs::Lacking::no_variable))]
fn is_variable(found: &ExprForm) -> bool
    ensures { result ≡ is_variable (form found.now) }
{
    match found {
        ExprForm::Designator(part) => is_object_variable(part.object),
        ExprForm::Number(_)
        | ExprForm::Logical(_)
        | ExprForm::Call { .. }
        | ExprForm::Intrinsic(_)
        | ExprForm::Parenthesized(_)
        | ExprForm::ArrayConstructor(_)
        | ExprForm::Plus(_)
        | ExprForm::Minus(_)
        | ExprForm::Not(_)
        | ExprForm::Arithmetic { .. }
        | ExprForm::Relation { .. }
        | ExprForm::Logic { .. } => false,
    }
}

// Whether an object is no constant.
fn is_object_variable(object: Object) -> bool
    ensures { result ≡ is_object_variable object }
{
    match object {
        Object::Local(_) | Object::Coarray(_) => true,
        Object::Constant(_) => false,
    }
}

//! Named constants and their parts (8.5.13, 9.4 to 9.6), and the constants of ISO_FORTRAN_ENV (16.10.2).

ghost use Rattle.std.specs.Prelude.{◌≡◌, ◌++◌, IfOk, None, cond, map};
ghost use Rattle.std.specs.Option.{option_map};
ghost use Rattle.caf_base.specs.declared.value.Kind.TheVariants as kinds;
ghost use Rattle.checked_tree.specs.declared.data.DataType.TheVariants as types;
ghost use Rattle.checked_tree.specs.declared.data.Object.TheVariants as objects;
ghost use Rattle.checked_tree.specs.Expressions as t;
ghost use Rattle.checked_tree.specs.ExpressionViews.{expression, maybe_selector};
ghost use Rattle.rule_definitions.specs.Expressions as rules;
ghost use Rattle.rule_definitions.specs.Judgements.{both, is_nothing, then_made};
ghost use Rattle.part_rules.specs.Brackets.{actual_seen, subscripts_in};
ghost use Rattle.part_rules.specs.Designators.{count_breaks};
ghost use Rattle.scope_table.specs.Symbols.{constant_symbol};
ghost use Rattle.expr_rules.specs.Objects.{constant_of, first_of_both, module_number};
ghost use Rattle.expr_rules.specs.Selections.{selection as selection_seen};

use crate::bracket::refused_around;
use crate::subscript::subscripts;
use caf_base::place::Pos;
use caf_base::refusal::NoMemory;
use caf_base::value::{Kind, Value};
use checked_tree::data::{DataType, Object};
use checked_tree::expr::{Designator, ExprForm, Selector, Subscript, TypedExpr};
use part_rules::bracket::Actual;
use part_rules::designator::{Selection, part_rank};
use part_rules::judged::{Judged, add_all, fine};
use part_rules::shape::{Ranks, counted};
use rule_definitions::rule;
use scope_table::symbol::{ConstantSymbol, ConstantValue};
use std::alloc::Global;

/// A scalar constant, where its type is known.
#[tactic(auto, using(checked_tree::specs::ExpressionViews::typed_forms))]
fn scalar(value: Value, of_type: Option<DataType>) -> Option<TypedExpr>
    ensures { option_map expression result ≡ (rules.scalar_value value of_type).meaning }
{
    let of_type = of_type?;
    let form = match value {
        Value::Int(number) => ExprForm::Number(number),
        Value::Bool(truth) => ExprForm::Logical(truth),
    };
    Some(TypedExpr {
        form,
        of_type,
        rank: 0,
    })
}

/// A part of an array constant, where its type is known.
#[tactic(auto, using(checked_tree::specs::ExpressionViews::typed_forms, checked_tree::specs::ExpressionViews::typed_made))]
fn array_part(
    number: u32,
    of_type: Option<DataType>,
    rank: u32,
    subscripts: Vec<Subscript>,
) -> Option<TypedExpr>
    ensures { option_map expression result ≡ (rules.typed_as of_type rank (t.part (objects.Constant number) (subscripts_in subscripts) t.no_selector)).meaning }
{
    let Some(of_type) = of_type else {
        drop(subscripts);
        return None;
    };
    Some(TypedExpr {
        form: ExprForm::Designator(Designator {
            object: Object::Constant(number),
            subscripts,
            selector: None,
        }),
        of_type,
        rank,
    })
}

/// A constant or a part of it, as far as something is known of it.
fn constant_form(
    constant: &ConstantSymbol,
    rank: u32,
    subscripts: Vec<Subscript>,
) -> Option<TypedExpr>
    ensures { option_map expression result ≡ (constant_of (constant_symbol constant.now) rank (subscripts_in subscripts)).meaning }
{
    match constant.value {
        ConstantValue::Unknown => {
            drop(subscripts);
            None
        }
        ConstantValue::Scalar(value) => {
            drop(subscripts);
            scalar(value, constant.of_type)
        }
        ConstantValue::Array(number) => array_part(number, constant.of_type, rank, subscripts),
    }
}

/// A constant or a part of it, where its brackets stand for something and hold what it wants.
fn constant_expr(
    holds: bool,
    constant: &ConstantSymbol,
    rank: u32,
    subscripts: Option<Vec<Subscript>>,
    selector: Option<Option<Selector>>,
) -> Option<TypedExpr>
    ensures { option_map expression result ≡ (then_made (constant_of (constant_symbol constant.now) rank) (cond holds (both first_of_both (option_map subscripts_in subscripts) (option_map maybe_selector selector)) None)).meaning }
{
    let Some(subscripts) = subscripts else {
        drop(selector);
        return None;
    };
    let Some(selector) = selector else {
        drop(subscripts);
        return None;
    };
    drop(selector);
    if holds {
        return constant_form(constant, rank, subscripts);
    }
    drop(subscripts);
    None
}

/// A named constant or a part of this rank of it, with its brackets: rules 33 and 34 at its name.
fn constant_with(
    constant: &ConstantSymbol,
    rank: u32,
    subscripts: Judged<Vec<Subscript>>,
    ranks: Ranks,
    count: usize,
    at: Pos,
    selection: Selection,
) -> Result<Judged<TypedExpr>, NoMemory>
    ensures breaks { IfOk result (λ j. j.breaks.items ≡ (subscripts.breaks.items ++ selection.judged.breaks.items) ++ count_breaks (subscripts.breaks.items ++ selection.judged.breaks.items) ranks.rank ranks.corank count selection.count at) }
    ensures meaning { IfOk result (λ j. option_map expression j.meaning ≡ (then_made (constant_of (constant_symbol constant.now) rank) (cond (is_nothing (count_breaks (subscripts.breaks.items ++ selection.judged.breaks.items) ranks.rank ranks.corank count selection.count at)) (both first_of_both (option_map subscripts_in subscripts.meaning) (option_map maybe_selector selection.judged.meaning)) None)).meaning) }
{
    let Judged {
        mut breaks,
        meaning,
    } = subscripts;
    let Selection {
        count: cosubscripts,
        judged: Judged {
            breaks: further,
            meaning: selector,
        },
    } = selection;
    add_all(&mut breaks, further)?;
    let holds = counted(&mut breaks, ranks, count, cosubscripts, at)?;
    let meaning = constant_expr(holds, constant, rank, meaning, selector);
    Ok(Judged { breaks, meaning })
}

/// A named constant or a part of it: rules 31, 33 and 34.
pub fn constant_part(
    alloc: Global,
    constant: &ConstantSymbol,
    at: Pos,
    actuals: Vec<Actual>,
    selection: Selection,
) -> Result<Judged<TypedExpr>, NoMemory>
    ensures breaks { IfOk result (λ j. j.breaks.items ≡ (rules.constant_part (constant_symbol constant.now) at (map actual_seen actuals.items) (selection_seen selection)).breaks) }
    ensures meaning { IfOk result (λ j. option_map expression j.meaning ≡ (rules.constant_part (constant_symbol constant.now) at (map actual_seen actuals.items) (selection_seen selection)).meaning) }
{
    let ranks = Ranks {
        rank: constant.bounds.len(),
        corank: 0,
    };
    let count = actuals.len();
    let rank = part_rank(ranks.rank, actuals.as_slice())?;
    let subscripts = subscripts(alloc, actuals)?;
    constant_with(constant, rank, subscripts, ranks, count, at, selection)
}

/// A constant of ISO_FORTRAN_ENV: rule 33 for brackets behind it.
#[tactic(auto, using(crate::proofs::Objects::module_laws))]
pub fn module_constant(
    alloc: Global,
    number: i64,
    actuals: Vec<Actual>,
    at: Pos,
) -> Result<Judged<TypedExpr>, NoMemory>
    ensures breaks { IfOk result (λ j. j.breaks.items ≡ (rules.unsubscripted (module_number number) (map actual_seen actuals.items) at).breaks) }
    ensures meaning { IfOk result (λ j. option_map expression j.meaning ≡ (rules.unsubscripted (module_number number) (map actual_seen actuals.items) at).meaning) }
{
    if actuals.len() > 0 {
        return refused_around(alloc, actuals, rule::SUBSCRIPT_COUNT, at);
    }
    drop(actuals);
    Ok(fine(alloc, default_integer(number)))
}

/// A number of default kind.
#[tactic(auto, using(checked_tree::specs::ExpressionViews::typed_forms))]
fn default_integer(number: i64) -> TypedExpr
    ensures { expression result ≡ t.typed (t.number number) (types.Intrinsic kinds.I4) 0 }
{
    TypedExpr {
        form: ExprForm::Number(number),
        of_type: DataType::Intrinsic(Kind::I4),
        rank: 0,
    }
}

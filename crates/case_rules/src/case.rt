//! The selector and the case values of SELECT CASE (11.1.9.1): rules 37, 44, 51 and 56.

ghost use Rattle.std.specs.Prelude.{◌≡◌, ◌++◌, [], cond, not, IfOk, None, OnOk, map};
ghost use Rattle.std.specs.Option.{option_map};
ghost use Rattle.checked_tree.specs.ExpressionViews.{expression};
ghost use Rattle.checked_tree.specs.declared.statement.CaseRange.TheVariants as typed;
ghost use Rattle.constant_values.specs.Views.{constancy as constancy_seen};
ghost use Rattle.fortran_tree.specs.ExpressionViews.{expression as written};
ghost use Rattle.fortran_tree.specs.StatementViews.{case_range as range_written};
ghost use Rattle.fortran_tree.specs.Statements as fs;
ghost use Rattle.part_rules.specs.Views.{judgement, list_of, placed as placed_part};
ghost use Rattle.rule_definitions.specs.Constants as constants;
ghost use Rattle.rule_definitions.specs.Declarations as declarations;
ghost use Rattle.rule_definitions.specs.Expressions.{placed};
ghost use Rattle.rule_definitions.specs.Judgements.{both, is_nothing, made, then, under, unless};
ghost use Rattle.rule_definitions.specs.Parts.{place_of, plain as plain_part};
ghost use Rattle.rule_definitions.specs.Statements as rules;

use caf_base::place::Pos;
use caf_base::refusal::NoMemory;
use caf_base::value::Value;
use case_ranges::ranges::CaseRanges;
use checked_tree::data::DataType;
use checked_tree::expr::TypedExpr;
use checked_tree::statement::CaseRange as TypedRange;
use constant_rules::wanting::lacks_value;
use constant_values::constancy::Constancy;
use constant_values::value::value_of;
use expr_rules::expr::judge_part;
use fortran_tree::expr::Expr;
use fortran_tree::statement::CaseRange;
use part_rules::judged::{Judged, breaking, fine, joined, keep, refused, ruled, unknown};
use part_rules::part::{Part, is_plain, plain};
use part_rules::types::{is_integer_type, is_logical_type, is_team_type, takes};
use rule_definitions::rule;
use rule_definitions::taken::Taken;
use scope_table::scope::Scope;
use std::alloc::Global;

// A selector: rule 51 for a team, rule 44 for another type than integer or logical, rule 37 for an array.
fn select(part: Part) -> Result<Judged<TypedExpr>, NoMemory>
    ensures breaks { IfOk result (λ j. j.breaks.items ≡ (rules.selecting (placed_part part)).breaks) }
    ensures meaning { IfOk result (λ j. option_map expression j.meaning ≡ (rules.selecting (placed_part part)).meaning) }
{
    let at = part.at;
    let value = plain(part)?;
    let Some(found) = &value.meaning else {
        return Ok(value);
    };
    let is_scalar = found.rank == 0;
    let value = if takes(Taken::IntegersOrLogicals, found.of_type) {
        value
    } else if is_team_type(found.of_type) {
        breaking(value, rule::TEAM, at)?
    } else {
        breaking(value, rule::CASE_VALUE, at)?
    };
    if is_scalar {
        Ok(value)
    } else {
        breaking(value, rule::ARRAY_FOR_SCALAR, at)
    }
}

/// A selector.
pub fn judge_selector(
    alloc: Global,
    scope: &Scope<'_>,
    expr: &Expr,
) -> Result<Judged<TypedExpr>, NoMemory>
    ensures breaks { IfOk result (λ j. j.breaks.items ≡ (rules.selecting (placed scope.now (written expr.now))).breaks) }
    ensures meaning { IfOk result (λ j. option_map expression j.meaning ≡ (rules.selecting (placed scope.now (written expr.now))).meaning) }
{
    let part = judge_part(alloc, scope, expr)?;
    select(part)
}

// Whether a value of a type may be held against a selector.
fn is_selected_type(selector: &Option<TypedExpr>, of_type: DataType) -> bool
    ensures { result ≡ rules.is_selected_type (option_map expression selector.now) of_type }
{
    let Some(selector) = selector else {
        return true;
    };
    (is_integer_type(selector.of_type) && is_integer_type(of_type))
        || (is_logical_type(selector.of_type) && is_logical_type(of_type))
}

fn is_logical_selector(selector: &Option<TypedExpr>) -> bool
    ensures { result ≡ rules.is_logical_selector (option_map expression selector.now) }
{
    match selector {
        Some(selector) => is_logical_type(selector.of_type),
        None => false,
    }
}

// A case value by its type and its rank.
fn select_value(selector: &Option<TypedExpr>, part: Part) -> Result<Judged<TypedExpr>, NoMemory>
    ensures breaks { IfOk result (λ j. j.breaks.items ≡ (under (plain_part (placed_part part)) (rules.case_value_breaks (option_map expression selector.now) part.at)).breaks) }
    ensures meaning { IfOk result (λ j. option_map expression j.meaning ≡ (under (plain_part (placed_part part)) (rules.case_value_breaks (option_map expression selector.now) part.at)).meaning) }
{
    let at = part.at;
    let value = plain(part)?;
    let Some(found) = &value.meaning else {
        return Ok(value);
    };
    let is_scalar = found.rank == 0;
    let is_selected = is_selected_type(selector, found.of_type);
    let value = ruled(value, is_selected, rule::CASE_VALUE, at)?;
    ruled(value, is_scalar, rule::ARRAY_FOR_SCALAR, at)
}

fn number_of(value: Value) -> i64
    ensures { result ≡ rules.number_of value }
{
    match value {
        Value::Int(number) => number,
        Value::Bool(true) => 1,
        Value::Bool(false) => 0,
    }
}

// What a case value stands for before the run: rule 44 where that is nothing.
fn constant_number(alloc: Global, found: Constancy, at: Pos) -> Result<Judged<i64>, NoMemory>
    ensures breaks { IfOk result (λ j. j.breaks.items ≡ (rules.case_constant at (constancy_seen found)).breaks) }
    ensures meaning { IfOk result (λ j. j.meaning ≡ (rules.case_constant at (constancy_seen found)).meaning) }
{
    match found {
        Constancy::Value(value) => Ok(fine(alloc, number_of(value))),
        Constancy::Values { extents, values } => {
            drop(extents);
            drop(values);
            Ok(unknown(alloc))
        }
        Constancy::NoConstant => refused(alloc, rule::CASE_VALUE, at),
    }
}

fn constancy_of(
    alloc: Global,
    scope: &Scope<'_>,
    expr: &Expr,
    value: &TypedExpr,
) -> Result<Constancy, NoMemory>
    ensures { IfOk result (λ c. constancy_seen c ≡ cond (declarations.lacks_value scope.now (written expr.now)) constants.no_constant (constants.value_of scope.now (expression value.now))) }
{
    if lacks_value(alloc, scope, expr)? {
        return Ok(Constancy::NoConstant);
    }
    value_of(alloc, scope, value)
}

// What a case value that was judged stands for before the run.
fn number_behind(
    alloc: Global,
    scope: &Scope<'_>,
    expr: &Expr,
    value: Judged<TypedExpr>,
    at: Pos,
) -> Result<Judged<i64>, NoMemory>
    ensures breaks { IfOk result (λ j. j.breaks.items ≡ (then (judgement expression value) (λ v. rules.case_constant at (cond (declarations.lacks_value scope.now (written expr.now)) constants.no_constant (constants.value_of scope.now v)))).breaks) }
    ensures meaning { IfOk result (λ j. j.meaning ≡ (then (judgement expression value) (λ v. rules.case_constant at (cond (declarations.lacks_value scope.now (written expr.now)) constants.no_constant (constants.value_of scope.now v)))).meaning) }
{
    let Judged { breaks, meaning } = value;
    let Some(value) = meaning else {
        return Ok(Judged {
            breaks,
            meaning: None,
        });
    };
    let found = constancy_of(alloc, scope, expr, &value)?;
    drop(value);
    let Judged {
        breaks: further,
        meaning,
    } = constant_number(alloc, found, at)?;
    joined(breaks, further, meaning)
}

// A case value: its number, whether nothing is broken in its expression and that is no list of images, and its place.
#[derive(Drop)]
struct CaseValue {
    number: Judged<i64>,
    is_plain: bool,
    at: Pos,
}

fn judge_value(
    alloc: Global,
    scope: &Scope<'_>,
    selector: &Option<TypedExpr>,
    expr: &Expr,
) -> Result<CaseValue, NoMemory>
    ensures breaks { IfOk result (λ v. v.number.breaks.items ≡ (rules.case_value scope.now (option_map expression selector.now) (written expr.now)).breaks) }
    ensures meaning { IfOk result (λ v. v.number.meaning ≡ (rules.case_value scope.now (option_map expression selector.now) (written expr.now)).meaning) }
    ensures plain { IfOk result (λ v. v.is_plain ≡ is_nothing (rules.raw_case_breaks scope.now (written expr.now))) }
    ensures at { IfOk result (λ v. v.at ≡ place_of (written expr.now)) }
{
    let part = judge_part(alloc, scope, expr)?;
    let at = part.at;
    let is_plain = is_plain(&part);
    let value = select_value(selector, part)?;
    let number = number_behind(alloc, scope, expr, value, at)?;
    Ok(CaseValue {
        number,
        is_plain,
        at,
    })
}

// A range of a selector's values: rule 44 where the selector is logical, unless something else is broken in it.
fn unless_logical(
    range: Judged<TypedRange>,
    selector: &Option<TypedExpr>,
    is_plain: bool,
    at: Pos,
) -> Result<Judged<TypedRange>, NoMemory>
    ensures breaks { IfOk result (λ j. j.breaks.items ≡ range.breaks.items ++ cond is_plain (unless (not (rules.is_logical_selector (option_map expression selector.now))) 44 at) []) }
    ensures meaning { IfOk result (λ j. j.meaning ≡ cond (is_nothing (cond is_plain (unless (not (rules.is_logical_selector (option_map expression selector.now))) 44 at) [])) range.meaning None) }
{
    if !is_plain {
        return Ok(range);
    }
    let holds = !is_logical_selector(selector);
    ruled(range, holds, rule::CASE_VALUE, at)
}

fn single(value: Option<i64>) -> Option<TypedRange>
    ensures { result ≡ made typed.Value value }
{
    match value {
        Some(value) => Some(TypedRange::Value(value)),
        None => None,
    }
}

fn at_least(value: Option<i64>) -> Option<TypedRange>
    ensures { result ≡ made typed.AtLeast value }
{
    match value {
        Some(value) => Some(TypedRange::AtLeast(value)),
        None => None,
    }
}

fn at_most(value: Option<i64>) -> Option<TypedRange>
    ensures { result ≡ made typed.AtMost value }
{
    match value {
        Some(value) => Some(TypedRange::AtMost(value)),
        None => None,
    }
}

fn between(low: Option<i64>, high: Option<i64>) -> Option<TypedRange>
    ensures { result ≡ both typed.Between low high }
{
    match (low, high) {
        (Some(low), Some(high)) => Some(TypedRange::Between(low, high)),
        (Some(_), None) | (None, _) => None,
    }
}

// A range of case values, and its place.
#[derive(Drop)]
struct PlacedRange {
    range: Judged<TypedRange>,
    at: Pos,
}

fn judge_single(
    alloc: Global,
    scope: &Scope<'_>,
    selector: &Option<TypedExpr>,
    expr: &Expr,
) -> Result<PlacedRange, NoMemory>
    ensures breaks { IfOk result (λ r. r.range.breaks.items ≡ (rules.case_range scope.now (option_map expression selector.now) (fs.single (written expr.now))).breaks) }
    ensures meaning { IfOk result (λ r. r.range.meaning ≡ (rules.case_range scope.now (option_map expression selector.now) (fs.single (written expr.now))).meaning) }
    ensures at { IfOk result (λ r. r.at ≡ place_of (written expr.now)) }
{
    let CaseValue { number, at, .. } = judge_value(alloc, scope, selector, expr)?;
    let Judged { breaks, meaning } = number;
    Ok(PlacedRange {
        range: Judged {
            breaks,
            meaning: single(meaning),
        },
        at,
    })
}

fn judge_at_least(
    alloc: Global,
    scope: &Scope<'_>,
    selector: &Option<TypedExpr>,
    expr: &Expr,
) -> Result<PlacedRange, NoMemory>
    ensures breaks { IfOk result (λ r. r.range.breaks.items ≡ (rules.case_range scope.now (option_map expression selector.now) (fs.at_least (written expr.now))).breaks) }
    ensures meaning { IfOk result (λ r. r.range.meaning ≡ (rules.case_range scope.now (option_map expression selector.now) (fs.at_least (written expr.now))).meaning) }
    ensures at { IfOk result (λ r. r.at ≡ place_of (written expr.now)) }
{
    let CaseValue {
        number,
        is_plain,
        at,
    } = judge_value(alloc, scope, selector, expr)?;
    let Judged { breaks, meaning } = number;
    let range = Judged {
        breaks,
        meaning: at_least(meaning),
    };
    let range = unless_logical(range, selector, is_plain, at)?;
    Ok(PlacedRange { range, at })
}

fn judge_at_most(
    alloc: Global,
    scope: &Scope<'_>,
    selector: &Option<TypedExpr>,
    expr: &Expr,
    at: Pos,
) -> Result<PlacedRange, NoMemory>
    ensures breaks { IfOk result (λ r. r.range.breaks.items ≡ (rules.case_range scope.now (option_map expression selector.now) (fs.at_most (written expr.now) at)).breaks) }
    ensures meaning { IfOk result (λ r. r.range.meaning ≡ (rules.case_range scope.now (option_map expression selector.now) (fs.at_most (written expr.now) at)).meaning) }
    ensures at { IfOk result (λ r. r.at ≡ at) }
{
    let CaseValue {
        number,
        is_plain,
        ..
    } = judge_value(alloc, scope, selector, expr)?;
    let Judged { breaks, meaning } = number;
    let range = Judged {
        breaks,
        meaning: at_most(meaning),
    };
    let range = unless_logical(range, selector, is_plain, at)?;
    Ok(PlacedRange { range, at })
}

#[tactic(auto, using(part_rules::proofs::Nothing::nothing_in_both))]
fn judge_between(
    alloc: Global,
    scope: &Scope<'_>,
    selector: &Option<TypedExpr>,
    low: &Expr,
    high: &Expr,
) -> Result<PlacedRange, NoMemory>
    ensures breaks { IfOk result (λ r. r.range.breaks.items ≡ (rules.case_range scope.now (option_map expression selector.now) (fs.between (written low.now) (written high.now))).breaks) }
    ensures meaning { IfOk result (λ r. r.range.meaning ≡ (rules.case_range scope.now (option_map expression selector.now) (fs.between (written low.now) (written high.now))).meaning) }
    ensures at { IfOk result (λ r. r.at ≡ place_of (written low.now)) }
{
    let CaseValue {
        number: from,
        is_plain: is_plain_low,
        at,
    } = judge_value(alloc, scope, selector, low)?;
    let CaseValue {
        number: to,
        is_plain: is_plain_high,
        ..
    } = judge_value(alloc, scope, selector, high)?;
    let meaning = between(from.meaning, to.meaning);
    let range = joined(from.breaks, to.breaks, meaning)?;
    let range = unless_logical(range, selector, is_plain_low && is_plain_high, at)?;
    Ok(PlacedRange { range, at })
}

fn judge_range_alone(
    alloc: Global,
    scope: &Scope<'_>,
    selector: &Option<TypedExpr>,
    range: &CaseRange,
) -> Result<PlacedRange, NoMemory>
    ensures breaks { IfOk result (λ r. r.range.breaks.items ≡ (rules.case_range scope.now (option_map expression selector.now) (range_written range.now)).breaks) }
    ensures meaning { IfOk result (λ r. r.range.meaning ≡ (rules.case_range scope.now (option_map expression selector.now) (range_written range.now)).meaning) }
    ensures at { IfOk result (λ r. r.at ≡ rules.place_of_range (range_written range.now)) }
{
    match range {
        CaseRange::Value(expr) => judge_single(alloc, scope, selector, expr),
        CaseRange::AtLeast(expr) => judge_at_least(alloc, scope, selector, expr),
        CaseRange::AtMost { upper, at } => judge_at_most(alloc, scope, selector, upper, *at),
        CaseRange::Between(low, high) => judge_between(alloc, scope, selector, low, high),
    }
}

// A range behind earlier ones, which it is put to where it is known: rule 44 where it has a value of one of them.
fn judge_range(
    alloc: Global,
    scope: &Scope<'_>,
    selector: &Option<TypedExpr>,
    before: &mut CaseRanges,
    range: &CaseRange,
) -> Result<Judged<TypedRange>, NoMemory>
    ensures breaks { IfOk result (λ j. j.breaks.items ≡ (rules.judged_range scope.now (option_map expression selector.now) before.old (range_written range.now)).breaks) }
    ensures meaning { IfOk result (λ j. j.meaning ≡ (rules.judged_range scope.now (option_map expression selector.now) before.old (range_written range.now)).meaning) }
    ensures before { OnOk result (before.new ≡ rules.with_range before.old (rules.case_range scope.now (option_map expression selector.now) (range_written range.now)).meaning) }
{
    let PlacedRange { range, at } = judge_range_alone(alloc, scope, selector, range)?;
    let Some(found) = range.meaning else {
        return Ok(range);
    };
    let is_new = !before.overlaps_one(found);
    before.add(found)?;
    ruled(range, is_new, rule::CASE_VALUE, at)
}

/// The ranges of a CASE statement behind earlier ones, which they are put to.
pub fn judge_ranges(
    alloc: Global,
    scope: &Scope<'_>,
    selector: &Option<TypedExpr>,
    before: &mut CaseRanges,
    ranges: &[CaseRange],
) -> Result<Judged<Vec<TypedRange>>, NoMemory>
    ensures breaks { IfOk result (λ j. j.breaks.items ≡ (rules.judged_ranges scope.now (option_map expression selector.now) before.old (map range_written ranges.now)).breaks) }
    ensures meaning { IfOk result (λ j. option_map list_of j.meaning ≡ (rules.judged_ranges scope.now (option_map expression selector.now) before.old (map range_written ranges.now)).meaning) }
    ensures before { OnOk result (before.new ≡ rules.ranges_behind scope.now (option_map expression selector.now) before.old (map range_written ranges.now)) }
{
    let mut list = fine(alloc, Vec::new(alloc));
    for range in ranges {
        let judged = judge_range(alloc, scope, selector, before, range)?;
        keep(&mut list, judged)?;
    }
    Ok(list)
}

//! Initial values.

ghost use Rattle.std.specs.Prelude.{◌≡◌, ◌++◌, ◌||◌, not, nat_eq};
ghost use Rattle.std.specs.Option.{option_map};
ghost use Rattle.rule_definitions.specs.Judgements.{first_of, is_nothing, unless};
ghost use Rattle.rule_definitions.specs.Names.{is_integer, is_team};
ghost use Rattle.rule_definitions.specs.Declarations.{is_like, is_held, all_held, has_extents, type_breaks, extent_breaks, value_breaks, is_special, initialized_breaks};
ghost use Rattle.constant_values.specs.Views.{constancy};
ghost use Rattle.declaration_rules.specs.Entities.{unit};
ghost use Rattle.declaration_rules.specs.Asked.{asked, worth};
ghost use Rattle.declaration_rules.specs.Initials.{constant_initial_asked, initial_asked, initial_of_worth, is_extent, extent_of_bounds};

use crate::asked::{Asked, Valued, constant_value, is_clean};
use crate::attribute::DeclaringUnit;
use crate::kind::is_logical_type;
use caf_base::place::Pos;
use caf_base::value::{Kind, Value};
use checked_tree::data::DataType;
use constant_values::constancy::{Constancy, can_hold};
use rule_definitions::broken::Broken;
use rule_definitions::rule;
use scope_table::broken::note;
use scope_table::symbol::KnownBounds;

/// Whether a type is an integer type.
pub fn is_integer_type(of_type: DataType) -> bool
    ensures { result ≡ is_integer of_type }
{
    match of_type {
        DataType::Intrinsic(Kind::I4 | Kind::I8) => true,
        DataType::Intrinsic(Kind::L4) | DataType::Team | DataType::Event | DataType::Lock => false,
    }
}

fn is_team_type(of_type: DataType) -> bool
    ensures { result ≡ is_team of_type }
{
    match of_type {
        DataType::Team => true,
        DataType::Intrinsic(_) | DataType::Event | DataType::Lock => false,
    }
}

/// Whether a value of one type may be given to a variable of the other (ISO/IEC 1539-1:2018, Table 10.8).
pub fn is_alike(of_type: DataType, value_type: DataType) -> bool
    ensures { result ≡ is_like of_type value_type }
{
    if is_integer_type(of_type) {
        return is_integer_type(value_type);
    }
    if is_logical_type(of_type) {
        return is_logical_type(value_type);
    }
    is_team_type(of_type) && is_team_type(value_type)
}

/// Whether a variable of a type can hold a value (7.4.3.1).
pub fn can_hold_value(of_type: DataType, value: Value) -> bool
    ensures { result ≡ is_held of_type value }
{
    match value {
        Value::Int(number) => can_hold(of_type, number),
        Value::Bool(_) => is_logical_type(of_type),
    }
}

fn can_hold_all(of_type: DataType, values: &[Value]) -> bool
    ensures { result ≡ all_held of_type values.now }
{
    for value in values {
        if !can_hold_value(of_type, *value) {
            return false;
        }
    }
    true
}

// Whether extents are those of known bounds, as far as these are known.
fn fits_extents(bounds: &[KnownBounds], extents: &[usize]) -> bool
    ensures { result ≡ has_extents bounds.now extents.now }
{
    let [next, bounds @ ..] = bounds else {
        return extents.is_empty();
    };
    let [extent, extents @ ..] = extents else {
        return false;
    };
    if !has_extent(*next, *extent) {
        return false;
    }
    fits_extents(bounds, extents)
}

// Whether an extent is that of bounds, where they are known.
fn has_extent(bounds: KnownBounds, extent: usize) -> bool
    ensures { result ≡ is_extent bounds extent }
{
    match bounds {
        None => true,
        Some((lower, upper)) => lie_between(lower, upper, extent),
    }
}

// Whether so many subscripts lie between bounds.
fn lie_between(lower: i64, upper: i64, extent: usize) -> bool
    ensures { result ≡ nat_eq (extent_of_bounds lower upper) extent }
{
    if upper < lower {
        return extent == 0;
    }
    if extent == 0 {
        return false;
    }
    upper.abs_diff(lower) == extent as u64 - 1
}

/// Rule 32, else rule 22: values of another type, or one that leaves the kind.
fn judge_types(
    first: &mut Option<Broken>,
    of_type: DataType,
    value_type: DataType,
    values: &[Value],
    at: Pos,
) -> bool
    ensures first { first.new ≡ first_of first.old (type_breaks of_type value_type values.now at) }
    ensures fine { result ≡ is_nothing (type_breaks of_type value_type values.now at) }
{
    if !is_alike(of_type, value_type) {
        note(first, rule::ASSIGNMENT, at);
        return false;
    }
    if !can_hold_all(of_type, values) {
        note(first, rule::INITIAL_VALUE, at);
        return false;
    }
    true
}

/// Rule 37, else rule 38: an array for a scalar, or one of another shape.
fn judge_extents(
    first: &mut Option<Broken>,
    bounds: &[KnownBounds],
    extents: &[usize],
    at: Pos,
) -> bool
    ensures first { first.new ≡ first_of first.old (extent_breaks bounds.now extents.now at) }
    ensures fine { result ≡ is_nothing (extent_breaks bounds.now extents.now at) }
{
    if bounds.is_empty() {
        note(first, rule::ARRAY_FOR_SCALAR, at);
        return false;
    }
    if !fits_extents(bounds, extents) {
        note(first, rule::ARRAY_ASSIGNMENT, at);
        return false;
    }
    true
}

/// A value of a type and shape (8.4); whether nothing breaks.
#[tactic(auto, using(scope_table::proofs::First::first_of_both, crate::proofs::Shapes::nothing_in_both))]
fn judge_value(
    first: &mut Option<Broken>,
    of_type: DataType,
    bounds: &[KnownBounds],
    value: &Valued,
    at: Pos,
) -> bool
    ensures first { first.new ≡ first_of first.old (value_breaks of_type bounds.now value.now.of_type (constancy value.now.constancy) at) }
    ensures fine { result ≡ is_nothing (value_breaks of_type bounds.now value.now.of_type (constancy value.now.constancy) at) }
{
    match &value.constancy {
        Constancy::Value(scalar) => judge_types(first, of_type, value.of_type, &[*scalar], at),
        Constancy::Values { extents, values } => {
            let has_types = judge_types(first, of_type, value.of_type, values.as_slice(), at);
            let has_extents = judge_extents(first, bounds, extents.as_slice(), at);
            has_types && has_extents
        }
        Constancy::NoConstant => {
            note(first, rule::INITIAL_VALUE, at);
            false
        }
    }
}

// Whether a type is that of events, locks or teams.
fn is_special_type(of_type: Option<DataType>) -> bool
    ensures { result ≡ is_special of_type }
{
    match of_type {
        None | Some(DataType::Intrinsic(_)) => false,
        Some(DataType::Team | DataType::Event | DataType::Lock) => true,
    }
}

// Rules 27, 28 and 22: whether a variable may have an initial value at all (8.4, 8.5.16); whether nothing breaks.
#[tactic(auto, using(scope_table::proofs::First::first_of_both, crate::proofs::Shapes::nothing_in_both))]
fn judge_initialized(
    first: &mut Option<Broken>,
    of: &DeclaringUnit<'_>,
    is_constant: bool,
    allocates: bool,
    of_type: Option<DataType>,
    at: Pos,
) -> bool
    ensures first { first.new ≡ first_of first.old (initialized_breaks (unit of.now) is_constant allocates of_type at) }
    ensures fine { result ≡ is_nothing (initialized_breaks (unit of.now) is_constant allocates of_type at) }
{
    let is_special = is_special_type(of_type);
    if is_special {
        note(first, rule::SPECIAL_TYPE, at);
    }
    let is_fine = judge_unit_value(first, of, is_constant, allocates, at);
    !is_special && is_fine
}

#[tactic(auto, using(scope_table::proofs::First::first_of_both))]
fn judge_unit_value(
    first: &mut Option<Broken>,
    of: &DeclaringUnit<'_>,
    is_constant: bool,
    allocates: bool,
    at: Pos,
) -> bool
    ensures first { first.new ≡ first_of first.old (unless (is_constant || not of.now.is_procedure) 28 at ++ unless (not allocates) 22 at) }
    ensures fine { result ≡ is_nothing (unless (is_constant || not of.now.is_procedure) 28 at ++ unless (not allocates) 22 at) }
{
    let is_misplaced = !is_constant && of.is_procedure;
    if is_misplaced {
        note(first, rule::IN_PROCEDURE, at);
    }
    if allocates {
        note(first, rule::INITIAL_VALUE, at);
        return false;
    }
    !is_misplaced
}

// What a value is for a variable of this type and shape.
fn initial_of_value<'a>(
    first: &mut Option<Broken>,
    of_type: Option<DataType>,
    bounds: &[KnownBounds],
    value: &'a Valued,
    at: Pos,
) -> Option<&'a Constancy>
    ensures first { first.new ≡ first_of first.old (initial_of_worth of_type bounds.now at (worth value.now)).breaks }
    ensures value { option_map (λ c. constancy c.now) result ≡ (initial_of_worth of_type bounds.now at (worth value.now)).meaning }
{
    if let Some(DataType::Intrinsic(kind)) = of_type {
        if judge_value(first, DataType::Intrinsic(kind), bounds, value, at) {
            return Some(&value.constancy);
        }
        return None;
    }
    if let Constancy::NoConstant = &value.constancy {
        note(first, rule::INITIAL_VALUE, at);
    }
    None
}

// A value that must be constant, for a variable of this type and shape.
#[tactic(auto, using(scope_table::proofs::First::first_of_both))]
fn constant_initial<'a>(
    first: &mut Option<Broken>,
    of_type: Option<DataType>,
    bounds: &[KnownBounds],
    expr: &'a Asked,
) -> Option<&'a Constancy>
    ensures first { first.new ≡ first_of first.old (constant_initial_asked of_type bounds.now (asked expr.now)).breaks }
    ensures value { option_map (λ c. constancy c.now) result ≡ (constant_initial_asked of_type bounds.now (asked expr.now)).meaning }
{
    let value = constant_value(first, rule::INITIAL_VALUE, expr)?;
    initial_of_value(first, of_type, bounds, value, expr.at)
}

/// An initial value (ISO/IEC 1539-1:2018, 8.4) of a variable of this type and shape, or of a named constant.
#[tactic(auto, using(scope_table::proofs::First::first_of_both))]
pub fn judge_initial<'a>(
    first: &mut Option<Broken>,
    of: &DeclaringUnit<'_>,
    is_constant: bool,
    allocates: bool,
    of_type: Option<DataType>,
    bounds: &[KnownBounds],
    expr: &'a Asked,
) -> Option<&'a Constancy>
    ensures first { first.new ≡ first_of first.old (initial_asked (unit of.now) is_constant allocates of_type bounds.now (asked expr.now)).breaks }
    ensures value { option_map (λ c. constancy c.now) result ≡ (initial_asked (unit of.now) is_constant allocates of_type bounds.now (asked expr.now)).meaning }
{
    let value = constant_initial(first, of_type, bounds, expr);
    if !is_clean(expr) {
        return value;
    }
    if !judge_initialized(first, of, is_constant, allocates, of_type, expr.at) {
        return None;
    }
    value
}

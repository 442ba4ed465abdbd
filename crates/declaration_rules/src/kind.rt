//! Kinds of types.

ghost use Rattle.std.specs.Prelude.{◌≡◌};
ghost use Rattle.rule_definitions.specs.Judgements.{first_of};
ghost use Rattle.rule_definitions.specs.Names.{is_logical};
ghost use Rattle.declaration_rules.specs.Asked.{asked, worth};
ghost use Rattle.declaration_rules.specs.Bounds.{kinds_of, kind_of_worth, kind_asked};

use crate::asked::{Asked, Valued, constant_value};
use caf_base::place::Pos;
use caf_base::value::{Kind, Value};
use checked_tree::data::DataType;
use constant_values::constancy::Constancy;
use rule_definitions::broken::Broken;
use rule_definitions::rule;
use scope_table::broken::note;

/// Of which type a kind is asked.
#[derive(Clone, Copy)]
pub enum KindOf {
    Integer,
    Logical,
}

/// The kind with this number (ISO/IEC 1539-1:2018, 7.4.3.1, 7.4.5).
pub fn kind_numbered(of: KindOf, number: i64) -> Option<Kind>
    ensures { result ≡ kinds_of of number }
{
    match of {
        KindOf::Integer => match number {
            4 => Some(Kind::I4),
            8 => Some(Kind::I8),
            _ => None,
        },
        KindOf::Logical => match number {
            4 => Some(Kind::L4),
            _ => None,
        },
    }
}

/// Whether a type is the logical one.
pub fn is_logical_type(of_type: DataType) -> bool
    ensures { result ≡ is_logical of_type }
{
    match of_type {
        DataType::Intrinsic(Kind::L4) => true,
        DataType::Intrinsic(Kind::I4 | Kind::I8)
        | DataType::Team
        | DataType::Event
        | DataType::Lock => false,
    }
}

// The kind that a value gives.
#[tactic(auto, using(scope_table::proofs::First::first_of_both))]
fn kind_of_value(first: &mut Option<Broken>, of: KindOf, at: Pos, value: &Valued) -> Option<Kind>
    ensures first { first.new ≡ first_of first.old (kind_of_worth of at (worth value.now)).breaks }
    ensures kind { result ≡ (kind_of_worth of at (worth value.now)).meaning }
{
    match &value.constancy {
        Constancy::Value(Value::Int(number)) => {
            let kind = kind_numbered(of, *number);
            if kind.is_none() {
                note(first, rule::KIND, at);
            }
            kind
        }
        Constancy::Value(Value::Bool(_)) => {
            note(first, rule::KIND, at);
            None
        }
        Constancy::Values { .. } => {
            note(first, rule::ARRAY_FOR_SCALAR, at);
            if is_logical_type(value.of_type) {
                note(first, rule::KIND, at);
            }
            None
        }
        Constancy::NoConstant => {
            note(first, rule::INITIAL_VALUE, at);
            None
        }
    }
}

/// The kind that is written in a declaration (7.4.3.1).
#[tactic(auto, using(scope_table::proofs::First::first_of_both))]
pub fn kind_of(first: &mut Option<Broken>, of: KindOf, expr: &Asked) -> Option<Kind>
    ensures first { first.new ≡ first_of first.old (kind_asked of (asked expr.now)).breaks }
    ensures kind { result ≡ (kind_asked of (asked expr.now)).meaning }
{
    let value = constant_value(first, rule::INITIAL_VALUE, expr)?;
    kind_of_value(first, of, expr.at, value)
}

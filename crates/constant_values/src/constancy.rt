//! What expressions stand for before the run.

ghost use Rattle.std.specs.Prelude.{◌≡◌};
ghost use Rattle.rule_definitions.specs.Constants as rules;
ghost use Rattle.rule_definitions.specs.Constants.{is_in_kind, is_in_type};
ghost use Rattle.constant_values.specs.Views.{constancy};

use caf_base::listing::Listing;
use caf_base::value::{Kind, Value};
use checked_tree::data::DataType;

/// What an expression stands for before the run.
#[derive(Drop)]
pub enum Constancy {
    /// A scalar.
    Value(Value),
    /// An array: its extents, and its elements in array element order.
    Values {
        extents: Listing<usize>,
        values: Listing<Value>,
    },
    /// A part of it isn't constant, or the evaluation would leave its kind, divide by zero or pass a bound.
    NoConstant,
}

/// Whether an expression stands for something before the run.
pub fn is_constant(found: &Constancy) -> bool
    ensures { result ≡ rules.is_constant (constancy found.now) }
{
    match found {
        Constancy::Value(_) | Constancy::Values { .. } => true,
        Constancy::NoConstant => false,
    }
}

/// Whether an integer of this kind can hold a number (ISO/IEC 1539-1:2018, 7.4.3.1).
pub fn holds(kind: Kind, number: i64) -> bool
    ensures { result ≡ is_in_kind kind number }
{
    match kind {
        Kind::I4 => -2_147_483_648 <= number && number <= 2_147_483_647,
        Kind::I8 => true,
        Kind::L4 => false,
    }
}

/// Whether a variable of this type can hold a number.
pub fn can_hold(of_type: DataType, number: i64) -> bool
    ensures { result ≡ is_in_type of_type number }
{
    match of_type {
        DataType::Intrinsic(kind) => holds(kind, number),
        DataType::Team | DataType::Event | DataType::Lock => false,
    }
}

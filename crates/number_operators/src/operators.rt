//! Operators of one operand and of two.

ghost use Rattle.std.specs.Prelude.{◌≡◌};
ghost use Rattle.caf_base.specs.Arithmetic.{truth};
ghost use Rattle.number_operators.specs.Operators.{IsExact, IsExactOfOne, result_of, result_of_one, as_found};

use crate::arithmetic::{Computed, absolute, difference, product, sum};
use crate::division::{modulo, quotient, remainder};
use crate::powers::power;
use caf_base::value::Kind;

/// An operator of two operands.
#[derive(Clone, Copy)]
pub enum Binary {
    Add(Kind),
    Subtract(Kind),
    Multiply(Kind),
    Divide(Kind),
    Power(Kind),
    Remainder,
    Modulo,
    Least,
    Greatest,
    Equal,
    Differ,
    Less,
    AtMost,
    Greater,
    AtLeast,
    Both,
    AnyOf,
}

/// An operator of one operand.
#[derive(Clone, Copy)]
pub enum Unary {
    Negate(Kind),
    Absolute(Kind),
    Negation,
}

/// The result of an operator, the left operand first.
#[inline(always)]
pub fn result(op: Binary, v: i64, w: i64) -> Computed
    requires { IsExact op }
    ensures { as_found result ≡ result_of op v w }
{
    match op {
        Binary::Add(kind) => sum(kind, v, w),
        Binary::Subtract(kind) => difference(kind, v, w),
        Binary::Multiply(kind) => product(kind, v, w),
        Binary::Divide(kind) => quotient(kind, v, w),
        Binary::Power(kind) => power(kind, v, w),
        Binary::Remainder => remainder(v, w),
        Binary::Modulo => modulo(v, w),
        Binary::Least => Computed::Value(if v <= w { v } else { w }),
        Binary::Greatest => Computed::Value(if v <= w { w } else { v }),
        Binary::Equal => Computed::Value(truth(v == w)),
        Binary::Differ => Computed::Value(truth(v != w)),
        Binary::Less => Computed::Value(truth(v < w)),
        Binary::AtMost => Computed::Value(truth(v <= w)),
        Binary::Greater => Computed::Value(truth(w < v)),
        Binary::AtLeast => Computed::Value(truth(w <= v)),
        Binary::Both => Computed::Value(truth(v != 0 && w != 0)),
        Binary::AnyOf => Computed::Value(truth(v != 0 || w != 0)),
    }
}

/// The result of an operator of one operand.
pub fn result_of_one(op: Unary, v: i64) -> Computed
    requires { IsExactOfOne op }
    ensures { as_found result ≡ result_of_one op v }
{
    match op {
        Unary::Negate(kind) => difference(kind, 0, v),
        Unary::Absolute(kind) => absolute(kind, v),
        Unary::Negation => Computed::Value(truth(v == 0)),
    }
}

/// 1 for true, and 0 for false.
pub fn truth(b: bool) -> i64
    ensures { result ≡ truth b }
{
    if b { 1 } else { 0 }
}

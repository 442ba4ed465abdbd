//! Two values combined, and what combines them.

ghost use Rattle.std.specs.Prelude.{◌≡◌, ◌+ℤ◌};
ghost use Rattle.object_rules.specs.Folds.{fits_kind, kept, combined};
ghost use Rattle.collectives.specs.Combining.{op_of};

use caf_base::value::{Kind, Value};

/// What a collective subroutine does with two elements: CO_SUM, CO_MIN or CO_MAX.
#[derive(Clone, Copy)]
pub enum Fold {
    Sum,
    Min,
    Max,
}

/// Whether the kind holds the number.
pub fn fits(kind: Kind, n: i64) -> bool
    ensures { result ≡ fits_kind kind n }
{
    match kind {
        Kind::I4 => -2_147_483_648 <= n && n <= 2_147_483_647,
        Kind::I8 => true,
        Kind::L4 => false,
    }
}

// The sum of two numbers, where the kind holds it.
fn sum_of(kind: Kind, a: i64, b: i64) -> Option<Value>
    ensures { result ≡ kept kind (a +ℤ b) }
{
    match a.checked_add(b) {
        Some(sum) if fits(kind, sum) => Some(Value::Int(sum)),
        _ => None,
    }
}

// Two values combined; None where the kind doesn't hold their sum.
pub(crate) fn combine_two(op: Fold, kind: Kind, a: Value, b: Value) -> Option<Value>
    ensures { result ≡ combined (op_of op) kind a b }
{
    match (a, b) {
        (Value::Int(x), Value::Int(y)) => match op {
            Fold::Sum => sum_of(kind, x, y),
            Fold::Min => Some(Value::Int(if x <= y { x } else { y })),
            Fold::Max => Some(Value::Int(if x <= y { y } else { x })),
        },
        _ => Some(a),
    }
}

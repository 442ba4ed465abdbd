//! Sums, differences and products, each of its kind (ISO/IEC 1539-1:2018, 10.1.5.2.1).

ghost use Rattle.std.specs.Prelude.{◌≡◌, pos, negsuc, ◌+ℤ◌, ◌-ℤ◌, ◌*ℤ◌, ◌≤ℤ◌, IsTrue};
ghost use Rattle.std.specs.Ordering.{int_eq};
ghost use Rattle.caf_base.specs.Arithmetic.{fits_kind, magnitude};
ghost use Rattle.image_acts.specs.Operate.Operators.{in_kind};
ghost use Rattle.number_operators.specs.Kinds.{IsInteger};
ghost use Rattle.number_operators.specs.Operators.{as_found};

use caf_base::value::Kind;
use caf_events::fault::OVERFLOW;

/// A result, or the number of a run fault.
#[derive(Clone, Copy)]
pub enum Computed {
    Value(i64),
    Fault(u32),
}

/// Whether a number is 0.
pub fn is_zero(v: i64) -> bool
    ensures { result ≡ int_eq v (pos 0) }
{
    v == 0
}

/// Whether a number is one of this kind.
#[inline(always)]
pub fn is_of_kind(kind: Kind, v: i64) -> bool
    ensures { result ≡ fits_kind kind v }
{
    match kind {
        Kind::I4 => -2147483648 <= v && v <= 2147483647,
        Kind::I8 | Kind::L4 => true,
    }
}

/// A number of this kind, or Overflow.
#[inline(always)]
pub fn in_kind(kind: Kind, v: i64) -> Computed
    ensures { as_found result ≡ in_kind kind v }
{
    if is_of_kind(kind, v) {
        Computed::Value(v)
    } else {
        Computed::Fault(OVERFLOW)
    }
}

/// Whether a number is one of 32 bits, as all of kind 4 are.
#[inline(always)]
fn is_short(v: i64) -> bool
    ensures lower { IsTrue result → negsuc 2147483647 ≤ℤ v }
    ensures upper { IsTrue result → v ≤ℤ pos 2147483647 }
{
    -2147483648 <= v && v <= 2147483647
}

/// Whether these are numbers of kind 4, so that 64 bits hold their sum, their difference and their product.
#[inline(always)]
fn are_short(kind: Kind, v: i64, w: i64) -> bool
    ensures left { IsTrue result → (negsuc 2147483647 ≤ℤ v) × (v ≤ℤ pos 2147483647) }
    ensures right { IsTrue result → (negsuc 2147483647 ≤ℤ w) × (w ≤ℤ pos 2147483647) }
{
    match kind {
        Kind::I4 => is_short(v) && is_short(w),
        Kind::I8 | Kind::L4 => false,
    }
}

/// A sum.
#[inline(always)]
pub fn sum(kind: Kind, v: i64, w: i64) -> Computed
    requires { IsInteger kind }
    ensures { as_found result ≡ in_kind kind (v +ℤ w) }
{
    if are_short(kind, v, w) {
        return in_kind(kind, v + w);
    }
    match v.checked_add(w) {
        None => Computed::Fault(OVERFLOW),
        Some(z) => in_kind(kind, z),
    }
}

/// A difference.
#[inline(always)]
pub fn difference(kind: Kind, v: i64, w: i64) -> Computed
    requires { IsInteger kind }
    ensures { as_found result ≡ in_kind kind (v -ℤ w) }
{
    if are_short(kind, v, w) {
        return in_kind(kind, v - w);
    }
    match v.checked_sub(w) {
        None => Computed::Fault(OVERFLOW),
        Some(z) => in_kind(kind, z),
    }
}

/// A product.
#[inline(always)]
pub fn product(kind: Kind, v: i64, w: i64) -> Computed
    requires { IsInteger kind }
    ensures { as_found result ≡ in_kind kind (v *ℤ w) }
{
    if are_short(kind, v, w) {
        return in_kind(kind, v * w);
    }
    match v.checked_mul(w) {
        None => Computed::Fault(OVERFLOW),
        Some(z) => in_kind(kind, z),
    }
}

/// A number without its sign (16.9.2).
pub fn absolute(kind: Kind, v: i64) -> Computed
    requires { IsInteger kind }
    ensures { as_found result ≡ in_kind kind (magnitude v) }
{
    if v < 0 {
        difference(kind, 0, v)
    } else {
        in_kind(kind, v)
    }
}

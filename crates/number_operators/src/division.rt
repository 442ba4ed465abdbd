//! Quotients and remainders (ISO/IEC 1539-1:2018, 10.1.5.2.2, 16.9.135, 16.9.136).
//! Programs divide mostly by powers of two, and mostly numbers that aren't negative: those divisions are a shift or a
//! mask.

ghost use Rattle.std.specs.Prelude.{◌≡◌, ◌<◌, ◌^◌, ◌≤ℤ◌, pos, false, int_div, int_rem};
ghost use Rattle.std.specs.Option.{IfSome};
ghost use Rattle.std.specs.Ordering.{int_eq};
ghost use Rattle.walk_theory.specs.Terms.{found};
ghost use Rattle.caf_base.specs.Arithmetic.{with_sign_of};
ghost use Rattle.image_acts.specs.Operate.Operators.{in_kind, divided, quotient};
ghost use Rattle.number_operators.specs.Kinds.{IsInteger};
ghost use Rattle.number_operators.specs.Operators.{as_found};

use crate::arithmetic::{Computed, in_kind, is_zero};
use caf_base::value::Kind;
use caf_events::fault::{DIVIDE_BY_ZERO, OVERFLOW};

/// A quotient, truncated toward 0.
#[inline(always)]
pub fn quotient(kind: Kind, v: i64, w: i64) -> Computed
    requires { IsInteger kind }
    ensures { as_found result ≡ quotient kind v w }
{
    if is_zero(w) {
        Computed::Fault(DIVIDE_BY_ZERO)
    } else {
        divided(kind, v, w)
    }
}

/// A quotient by a number other than 0.
#[inline(always)]
fn divided(kind: Kind, v: i64, w: i64) -> Computed
    requires integer { IsInteger kind }
    requires divisor { int_eq w (pos 0) ≡ false }
    ensures { as_found result ≡ in_kind kind (int_div v w) }
{
    match exponent(w) {
        Some(k) if v >= 0 => in_kind(kind, shifted(v, k)),
        _ => match v.checked_div(w) {
            None => Computed::Fault(OVERFLOW),
            Some(z) => in_kind(kind, z),
        },
    }
}

/// The exponent of a power of two; None for any other number.
#[tactic(auto, using(crate::proofs::PowersOfTwo::one_shifted))]
#[inline(always)]
fn exponent(w: i64) -> Option<u32>
    ensures small { IfSome result (λ k. k < 63) }
    ensures power { IfSome result (λ k. w ≡ pos (2 ^ k)) }
{
    let k = w.trailing_zeros();
    if k < 63 && w == 1 << k { Some(k) } else { None }
}

/// The quotient of a number that isn't negative by 2 to the power `k`.
#[inline(always)]
fn shifted(v: i64, k: u32) -> i64
    requires natural { pos 0 ≤ℤ v }
    requires small { k < 63 }
    ensures { result ≡ int_div v (pos (2 ^ k)) }
{
    v >> k
}

/// MOD: what a division leaves, with the sign of the first number.
#[inline(always)]
pub fn remainder(v: i64, w: i64) -> Computed
    ensures { as_found result ≡ divided w (found (int_rem v w)) }
{
    if is_zero(w) {
        Computed::Fault(DIVIDE_BY_ZERO)
    } else {
        Computed::Value(rest(v, w))
    }
}

/// MODULO: what a division leaves, with the sign of the second number.
#[inline(always)]
pub fn modulo(v: i64, w: i64) -> Computed
    ensures { as_found result ≡ divided w (found (with_sign_of w (int_rem v w))) }
{
    if is_zero(w) {
        Computed::Fault(DIVIDE_BY_ZERO)
    } else {
        Computed::Value(rest_with_sign(v, w))
    }
}

/// What a division by a number other than 0 leaves. Of a number that isn't negative, a power of two leaves the bits
/// below its own.
#[tactic(auto, using(crate::proofs::PowersOfTwo::low_bits))]
#[inline(always)]
fn rest(v: i64, w: i64) -> i64
    requires { int_eq w (pos 0) ≡ false }
    ensures { result ≡ int_rem v w }
{
    match exponent(w) {
        Some(_) if v >= 0 => v & (w - 1),
        _ => v.wrapping_rem(w),
    }
}

/// What a division by a number other than 0 leaves, with the sign of that number. Where neither is negative it isn't
/// either.
#[tactic(auto, using(crate::proofs::SignLaws::sign_there))]
#[inline(always)]
fn rest_with_sign(v: i64, w: i64) -> i64
    requires { int_eq w (pos 0) ≡ false }
    ensures { result ≡ with_sign_of w (int_rem v w) }
{
    let left = rest(v, w);
    if v >= 0 && w >= 0 {
        left
    } else {
        with_sign_of(w, left)
    }
}

/// What a division by `w` leaves, with the sign of `w`.
#[inline(always)]
fn with_sign_of(w: i64, r: i64) -> i64
    ensures { result ≡ with_sign_of w r }
{
    if r == 0 {
        r
    } else if r < 0 {
        if w < 0 { r } else { r + w }
    } else if w < 0 {
        r + w
    } else {
        r
    }
}

//! Powers (ISO/IEC 1539-1:2018, 10.1.5.2.1, 10.1.5.2.2).

ghost use Rattle.std.specs.Prelude.{◌≡◌, ◌<◌, ◌≤◌, pos, unsigned_abs, int_lt, FitsSigned};
ghost use Rattle.std.specs.Int.{w64, int_pow};
ghost use Rattle.std.specs.Option.{SomeIff};
ghost use Rattle.caf_base.specs.Arithmetic.{power_of};
ghost use Rattle.image_acts.specs.Operate.Operators.{in_kind, raised};
ghost use Rattle.number_operators.specs.Kinds.{IsInteger};
ghost use Rattle.number_operators.specs.Operators.{as_found};

use crate::arithmetic::{Computed, in_kind};
use crate::division::quotient;
use caf_base::value::Kind;
use caf_events::fault::OVERFLOW;

/// A power. One with a negative exponent is 1 divided by that with the exponent without its sign.
#[tactic(auto, using(crate::proofs::PowerLaws::raised_faults, crate::proofs::PowerLaws::raised_below, crate::proofs::PowerLaws::raised_above))]
pub fn power(kind: Kind, x: i64, n: i64) -> Computed
    requires { IsInteger kind }
    ensures { as_found result ≡ raised kind x n }
{
    match natural_power(kind, x, n.unsigned_abs()) {
        Computed::Fault(k) => Computed::Fault(k),
        Computed::Value(p) => {
            if is_negative(n) {
                quotient(kind, 1, p)
            } else {
                Computed::Value(p)
            }
        }
    }
}

/// Whether a number is below 0.
fn is_negative(n: i64) -> bool
    ensures { result ≡ int_lt n (pos 0) }
{
    n < 0
}

/// A power with a natural exponent. Those of 0, 1 and -1 need no multiplying; of any other number one with an exponent
/// of 64 or more is too large.
#[tactic(auto, using(crate::proofs::PowerLaws::too_large))]
fn natural_power(kind: Kind, x: i64, n: u64) -> Computed
    requires { IsInteger kind }
    ensures { as_found result ≡ in_kind kind (power_of x n) }
{
    if x.unsigned_abs() < 2 {
        in_kind(kind, unit_power(x, n))
    } else if n < 64 {
        multiplied(kind, x, n as u32)
    } else {
        Computed::Fault(OVERFLOW)
    }
}

/// A power of 0, 1 or -1.
#[tactic(auto, using(crate::proofs::PowerLaws::no_factor, crate::proofs::PowerLaws::odd_unit, crate::proofs::PowerLaws::even_unit, crate::proofs::PowerLaws::even_natural))]
fn unit_power(x: i64, n: u64) -> i64
    requires { unsigned_abs x < 2 }
    ensures { result ≡ power_of x n }
{
    if n == 0 {
        1
    } else if n % 2 == 1 {
        x
    } else if x < 0 {
        1
    } else {
        x
    }
}

/// A number times itself, where it is one of 64 bits.
#[tactic(auto, using(crate::proofs::PowerLaws::power_is))]
fn checked_power(x: i64, n: u32) -> Option<i64>
    ensures { SomeIff result (FitsSigned w64 (power_of x n)) (power_of x n) }
{
    x.checked_pow(n)
}

/// A number times itself.
#[tactic(auto, using(crate::proofs::KindLaws::outside))]
fn multiplied(kind: Kind, x: i64, n: u32) -> Computed
    requires { IsInteger kind }
    ensures { as_found result ≡ in_kind kind (power_of x n) }
{
    match checked_power(x, n) {
        None => Computed::Fault(OVERFLOW),
        Some(p) => in_kind(kind, p),
    }
}

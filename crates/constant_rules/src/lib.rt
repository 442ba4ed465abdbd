//! Expressions of the source that must be constant (ISO/IEC 1539-1:2018, 10.1.12).
//! It stands on `expr_rules` and `constant_values`; the rules of declarations and of CASE stand on it.
//! Its main contract: `wanting::lacks_value` is the definition of its name.
#![tactic(auto)]

mod inquired;
mod named;
pub mod wanting;

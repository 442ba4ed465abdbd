//! Calls of intrinsic subroutines (ISO/IEC 1539-1:2018, 16.9): atomics, EVENT_QUERY, collectives; rules 49, 50, 53, 54
//! and 59.
//! It stands on `call_rules` and `specifier_rules`; the rules of statements stand on it.
//! Its main contract: `call::intrinsic_call` gives the judgement that the definition of its name in `rule_definitions`
//! says.
#![tactic(auto)]

pub mod arguments;
pub mod atom;
pub mod call;
pub mod collective;
pub mod dummies;
pub mod event;
pub mod form;
pub mod given;
pub mod several;

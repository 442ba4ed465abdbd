//! References to intrinsic functions (ISO/IEC 1539-1:2018, 16.9): the dummies of each and the conditions of its
//! arguments; rules 22, 23, 37, 51 and 59.
//! It stands on `call_rules`; the rules of expressions stand on it.
//! Its main contract: `function::intrinsic_reference` gives the judgement that the definition of its name in
//! `rule_definitions` says.
#![tactic(auto)]

pub mod form;
pub mod function;
pub mod image;
pub mod inquiry;
pub mod numeric;
pub mod several;

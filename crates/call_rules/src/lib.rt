//! References to procedures (ISO/IEC 1539-1:2018, 15.5): actual arguments of the program's procedures, and arguments
//! bound to the dummies of intrinsic procedures.
//! It stands on `part_rules` and `constant_values`; the rules of intrinsic functions and subroutines and those of
//! expressions stand on it.
//! Its main contract: `actual::arguments` gives the judgement that the definition of its name in `rule_definitions`
//! says; `binding::bind`, `binding::are_all_bound` and `binding::unbound` say of arguments what the definitions of
//! binding say.
#![tactic(auto)]

pub mod actual;
pub mod argument;
pub mod binding;
pub mod kind;
pub mod object;

//! Laws of the rules of the language (ISO/IEC 1539-1:2018): what holds of each program that is judged.
//! It stands on `rule_definitions`; `rule_checker` and `accepted_ranks` stand on it. It has laws alone.
//! Its main contract is `law_unbroken_has_meaning`: a program that breaks no rule is accepted as a checked program.
//! The laws of breaks: what the checker tells is the first of them, and each has a rule from 20 to 59.
#![tactic(auto)]

pub mod breaks;
pub mod meanings;

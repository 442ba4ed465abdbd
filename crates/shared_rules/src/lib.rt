//! What several statements share, judged: what an expression is by its form, scalar integers that may be left out
//! (rules 37, 39 and 51), and STAT= alone (9.7.4, 11.6.11).
//! It stands on `expr_rules` and `specifier_rules`; the rules of image control statements, allocation, assignment,
//! output and action statements stand on it.
//! Its main contract: each function gives the judgement that the definition of its part says.
#![tactic(auto)]

pub mod form;
pub mod optional;
pub mod stat;

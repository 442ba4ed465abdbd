//! The rules of declarations (ISO/IEC 1539-1:2018, 8) over expressions that were judged: bounds, kinds, and what holds
//! of an entity as a whole.
//! It stands on `caf_base`, `fortran_tree`, `checked_tree`, `rule_definitions`, `scope_table` and `constant_values`;
//! `unit_scopes` and the checker stand on it.
//! Its main contract: each function notes exactly the rules that the definition of its name says, and gives what that
//! definition gives. What is asked of an expression is an `Asked`; specs/Asked says which one it is of an expression in
//! a scope, and that the words here are those of `rule_definitions`.
#![tactic(auto)]

pub mod asked;
pub mod attribute;
pub mod bound;
pub mod dimension;
pub mod heading;
pub mod initial;
pub mod kind;
pub mod law;
pub mod result;
pub mod whole;

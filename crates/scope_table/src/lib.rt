//! What the checker keeps while it goes through a program: the names of a scope in declared order with what they stand
//! for, and the first broken rule.
//! It stands on `caf_base`, `fortran_tree`, `checked_tree` and `rule_definitions`, and on the kit's `indexmap`; the
//! crates of rules stand on it.
//! Its main contract: `denotes` gives what a name stands for in a scope (ISO/IEC 1539-1:2018, 19.3, 19.5.1.4, 14.2.2),
//! by maps and never by a search; `note` keeps the first of all rules that were noted, at one place that with the lower
//! number.
#![tactic(auto)]

pub mod broken;
pub mod dummy;
pub mod item;
pub mod known;
pub mod names;
mod numbered;
pub mod object;
pub mod outside;
pub mod pending;
pub mod scope;
pub mod symbol;
pub mod table;

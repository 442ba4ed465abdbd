//! The rules of the language (ISO/IEC 1539-1:2018), judged of a whole program.
//! It stands on `unit_scopes`, `statement_rules` and what is below them, and on a law of `rule_laws`; `caf_run` stands
//! on it.
//! Its main contract: `check::check` answers the checked program that the program is accepted as, or the first rule
//! that it breaks, at its place: the earliest in the source, at one place the lower number. Only want of memory while
//! it judges keeps an answer away: a program that breaks nothing has a checked program.
#![tactic(auto)]

pub mod check;
pub mod note;
pub mod procedure;
pub mod program;
pub mod unit;
pub mod variable;

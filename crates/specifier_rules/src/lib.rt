//! Result variables, conditions, and specifiers, NAME = value (ISO/IEC 1539-1:2018, 9.6, 9.7, 11.6): rules 35, 36, 39
//! and 51.
//! It stands on `part_rules`; the rules of image selectors and of statements stand on it.
//! Its main contract: each public function gives the judgement that its definition says: that of its name in
//! `rule_definitions`, or for the specifiers of selectors and statements as a whole one of specs/Meanings.
#![tactic(auto)]

pub mod condition;
pub mod keyword;
pub mod naming;
pub mod result;
pub mod selector;
pub mod specifier;
pub mod statement;
pub mod value;
pub mod variable;

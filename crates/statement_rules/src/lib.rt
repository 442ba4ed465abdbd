//! Statements and constructs, judged (ISO/IEC 1539-1:2018, 11.1): rules 32, 39 to 41, 44 and 51.
//! It stands on `action_rules`, `case_rules` and `numbering_rules`; the whole checker stands on it.
//! Its main contract: `statement::judge_statements` gives the judgement that the definition `judged_statements` says:
//! all rules that are broken in the statements, in the order of the definition, and the typed statements that they
//! stand for, nothing where one is broken.
#![tactic(auto)]

pub mod construct;
pub mod control;
pub mod pair;
pub mod position;
pub mod statement;

//! SELECT CASE, judged (ISO/IEC 1539-1:2018, 11.1.9): its selector, its case values and its blocks; rules 39 and 44.
//! It stands on `expr_rules`, `constant_rules` and `case_ranges`; the rules of statements stand on it.
//! Its main contract: `case::judge_ranges` and `case::judge_selector` give the judgement that the definition of their
//! part says, and `selection` gathers the blocks as that definition does.
#![tactic(auto)]

pub mod case;
pub mod selection;

//! Where a statement stands, and the statements that leave it (ISO/IEC 1539-1:2018, 11.1.12, 11.1.7.4.4, 15.6.2.7):
//! EXIT, CYCLE and RETURN; rules 41, 42 and 43.
//! It stands on `part_rules`; the rules of assignments and of all action statements stand on it.
//! Its main contracts: `branch::judge_exit`, `judge_cycle` and `judge_return` give the judgements that the definitions
//! `leaving` and `returning` say, and `branch::control` puts a judgement under rule 43.
#![tactic(auto)]

pub mod branch;
pub mod site;

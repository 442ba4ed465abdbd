//! Assignments, judged (ISO/IEC 1539-1:2018, 10.2.1): rules 32, 34, 37, 38, 47 and 56.
//! It stands on `expr_rules` and `branch_rules`; the rules of all action statements stand on it.
//! Its main contract: `assignment::judge_assignment` gives the judgement that the definition `assignment` says.
#![tactic(auto)]

pub mod assigned;
pub mod assignment;
pub mod definable;
pub mod form;
pub mod target;

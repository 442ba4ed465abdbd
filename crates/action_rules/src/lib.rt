//! Action statements, judged (ISO/IEC 1539-1:2018, 5.4.2): assignments, calls, output, branches, allocation and image
//! control; rules 32 to 38, 41 to 43, 47, 48, 51, 52, 55, 56 and 58.
//! It stands on the crates of single statements, such as `assignment_rules`, `allocation_rules` and
//! `image_control_rules`; the rules of constructs stand on it.
//! Its main contract: `action::judge_action` gives the judgement that the definition `judged_action` says.
#![tactic(auto)]

pub mod action;
pub mod call;
pub mod conditional;
pub mod control;
pub mod stop;

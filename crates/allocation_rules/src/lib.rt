//! Allocation, judged (ISO/IEC 1539-1:2018, 9.7.1 to 9.7.3): ALLOCATE and DEALLOCATE; rules 20, 33, 34, 37, 39, 51
//! and 55.
//! It stands on `part_rules` and, for STAT= and integers that may be left out, on `image_control_rules`; the rules of
//! action statements stand on it.
//! Its main contract: `allocation::judge_allocate` and `allocation::judge_deallocate` give the judgement that the
//! definition of their arm in `judged_action` says.
#![tactic(auto)]

pub mod allocation;
pub mod bounds;

//! The teams of a run, and which teams a FORM TEAM makes (ISO/IEC 1539-1:2018, 5.3.4, 11.6.9).
//! It stands on `caf_base` and on the definitions of `object_rules`; the control board stands on it.
//! Its main contract is that of `Teams::plan_form`: of the arguments of all images that have arrived exactly the teams
//! that are formed.
#![tactic(auto)]

pub mod arg;
pub mod groups;
pub mod numbers;
pub mod order;
pub mod plan;
pub mod team;
pub mod teams;

//! The lane of an image: a machine over the machine of its program, which makes the steps of a failure and comes to the
//! limit of recorded words.
//! It stands on `core_runs`, `object_rules` and `caf_events`.
//! A lane is a `Walker` (caf_events) like the machine that it holds, so a run of lanes is a run as `core_runs` has it.
//! A limit of stamps (`limit stamp`) is no step of a lane: it depends on the object's last stamp, which no walker
//! knows; `stamp_limits` says where it stands.
//! Main contract: what a lane says is a walk of its program, and behind it nothing, its failure, or its limit
//! (`law_course`).
#![tactic(auto)]

mod course;
mod held;
pub mod lane;
pub mod laws;
mod words;

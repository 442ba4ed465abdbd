//! The steps of an image on coarrays: their bounds and sections, their allocation, and the images that cosubscripts
//! name (ISO/IEC 1539-1:2018, 5.4.7, 9.6, 9.7.1).
//! It stands on `image_state`, `coarray_tables` and `team_tables`; `image_steps` stands on it.
//! Its main contract, of each step: the core becomes what `operate` says of the step's act, or stays where that faults
//! or has no operand. No step takes memory.
#![tactic(auto)]

pub mod bounds;
mod forms;
pub mod owners;
pub mod plans;

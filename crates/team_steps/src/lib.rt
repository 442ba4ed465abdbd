//! The steps of an image on teams: the current team, teams that are named, and image indices.
//! It stands on `image_state` and `team_tables`; `image_steps` stands on it.
//! Its main contract, of each step: the core becomes what `operate` says of the step's act, or stays where that faults
//! or has no operand. No step takes memory.
#![tactic(auto)]

pub mod current;
pub mod indices;
pub mod named;

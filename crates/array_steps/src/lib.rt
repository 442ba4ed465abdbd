//! The steps of an image on local arrays: elements and sections, bounds, allocation, and arguments by copying in and
//! out.
//! It stands on `image_state` and `local_arrays`; `image_steps` stands on it.
//! Its main contract, of each step: the core becomes what `operate` says of the step's act, or stays where that faults
//! or has no operand. No step takes memory.
#![tactic(auto)]

pub mod allocation;
pub mod arguments;
mod extents;
mod few;
mod forms;
mod locals;
mod offsets;
pub mod sections;
pub mod values;

//! The acts of an image: each step that is an act by the function that does it. Its kinds and ranks are such as made
//! code has (`IsPlainAct`).
//! It stands on `image_state`, `team_steps`, `array_steps` and `coarray_steps`; the machine of an image stands on it.
//! Its main contract is `act`: the core becomes what `operate` says of the step's act, or stays where that faults, asks
//! or has no operand. No act takes memory.
#![tactic(auto)]

pub mod steps;

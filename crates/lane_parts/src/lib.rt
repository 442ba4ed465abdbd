//! The parts of a run of lanes before its first step: for each image a lane over a machine that is given, with memories
//! and a board that are given.
//! It stands on `image_core` and `image_lanes`; a run of full programs begins with it (`full_parts`).
//! Main contract: what `start_lanes` makes is the first moment of a run of lanes, and a sound one where the run is fit.
#![tactic(auto)]

mod lanes;
pub mod start;

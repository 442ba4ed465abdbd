//! The parts of a run of full programs, before the first step: for each image a lane over a machine that is given and a
//! memory with the declared coarrays, and the control board. It stands on `lane_parts`, `coarray_memory` and
//! `control_board`; a run of full programs begins with it.
//! Main contract: what `start_full` makes is the first moment of a run of lanes, and a sound one where the run is fit.
#![tactic(auto)]

mod memories;
pub mod start;

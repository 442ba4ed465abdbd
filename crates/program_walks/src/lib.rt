//! The walks of checked programs, lanes over them and their runs: definitions and laws alone.
//! It stands on `tree_meaning`, `image_lanes` and `core_runs`; a run of full programs stands on it.
//! Its main contracts: each walk of a program is in order (`law_program_goes_in_order`) and over only behind a step
//! that ended its image, or FAIL IMAGE (`law_program_ends_in_order`), the run of a checked program is fit
//! (`law_program_fit`), so that its traces are core runs and lawful (`law_program_runs`). Lanes over programs that say
//! the same have the same runs, ordered runs and waits (`law_lanes_run_the_same`): so the runs of the program's code
//! are the runs of the program (`law_code_runs`).
#![tactic(auto)]

pub mod laws;

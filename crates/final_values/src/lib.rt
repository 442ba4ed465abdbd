//! The final values of a run: what the integer and logical variables of the main program hold on each image that made
//! no step of a failure.
//! It stands on `image_machine` and `coarray_memory`, of which it reads variables and coarrays, on `image_core` and
//! `image_lanes`, whose parts these are, and on `checked_tree`; the run of a program's code and of a checked program
//! stand on it.
//! Its main contracts: `listing::listed_variables` gives the integer and logical variables of the main program in
//! declared order (`listed_of`), `reading::finals` what they hold, by image in rising order (`run_finals`): a coarray
//! what the memory of the image holds by its history, another variable what the image's program has computed.
#![tactic(auto)]

mod holding;
pub mod listing;
pub mod reading;

//! What stands beside the code of a checked program: its literals, its declared coarrays, and how the frame of its main
//! program begins.
//! It stands on `tree_meaning`, whose start of an image it keeps, and on `image_code`, whose tables it fills; the
//! compiler stands on it.
//! Its main contract is `begin_code`: an empty draft of code with the tables of the program (`tables_of`). What an
//! image has at its start by these tables is what the program's meaning says: `law_frame_is_the_first` and
//! `law_coarrays_are_the_first`.
#![tactic(auto)]

pub mod coarray;
pub mod frame;
pub mod laws;
pub mod table;

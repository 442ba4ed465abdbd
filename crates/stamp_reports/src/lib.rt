//! Reports and limits of stamps: the trace of a run has so few entries that no report meets such a limit. On N images
//! with a limit of W recorded words it has at most N * (2 * W + 4), and as long as that is below 2 to the 62nd no limit
//! of stamps is due anywhere in it, nor before whatever an image asks behind it.
//! It stands on `checked_run`, of whose reports it speaks, on `stamp_limits`, and on `program_walks`, by which the run
//! of a checked program is fit; it has laws alone.
//! `accepted_fits` stands on it, for the number of a run's entries.
//! Its main contract is `law_no_report_meets_a_stamp_limit`.
#![tactic(auto)]

pub mod laws;

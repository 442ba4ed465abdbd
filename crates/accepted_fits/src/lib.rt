//! In a run of an accepted program over its own coarrays each next ask of an image fits, of those asks of which this is
//! known.
//! It stands on `accepted_asks`, by which an accepted program is sound where it allocates what is ALLOCATABLE, on
//! `next_fits`, by which a sound program's asks fit, on `checked_run` and `accepted_runs`, for the coarrays that a run
//! begins with, and on `team_counts` and `stamp_reports`, by which a run has few teams. It has laws alone. Its main
//! contract is `law_accepted_next_ask_fits`; `law_accepted_allocates` is its part, that no statement allocates or
//! deallocates what isn't ALLOCATABLE.
#![tactic(auto)]

pub mod laws;

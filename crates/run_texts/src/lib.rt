//! What a run writes is written for its trace: the text of the report of a run of an accepted program, with its trace,
//! is read back as that trace and no other.
//! It stands on `written_runs` and `lawful_texts`, which say so of a report of a lawful trace, on `trace_names`, which
//! says that the coarrays have names, on `walk_laws`, by which an image names no team but those that it was told, and
//! on `accepted_runs`, by which no section has more than three dimensions.
//! It has laws alone. Its main contract: `law_run_is_written`.
#![tactic(auto)]

pub mod laws;

//! Why a run of an accepted program is stuck: the chain of waits that its report's trace tells is that of its images.
//! It stands on `stuck_reports`, which has this of sound programs, and on `accepted_fits`, by which an accepted program
//! is sound over its own coarrays and its runs have few teams. It has one law alone, and nothing stands on it. Its main
//! contract is `law_accepted_stuck_reports`.
#![tactic(auto)]

pub mod laws;

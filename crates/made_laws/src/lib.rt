//! How long a made source is: never longer than a file may be.
//! It stands on `work_maker`, which says what the source of a seed and a size is; the answer of a run of a made
//! source stands on it.
//! Its main contract is `law_made_is_short`. Laws alone.
#![tactic(auto)]

pub mod laws;

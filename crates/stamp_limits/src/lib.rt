//! Limits of stamps: the runs whose images end where a stamp has reached the bound, 2 to the 62nd. The core runs of
//! `core_runs` leave this limit out; here it is defined, and it is proved that this is the same as long as no stamp is
//! above the bound, as in every run of at most 2 to the 62nd entries.
//! It stands on `core_runs` and has definitions and laws alone. A run that ends at limits of stamps is one by
//! `IsStampLimitedRun`.
//! Its main contracts are `law_no_stamp_limit_is_due` and `law_stamp_limited_run_is_core_run`: such runs and the core
//! runs of fit programs are the same below the bound.
#![tactic(auto)]

pub mod laws;

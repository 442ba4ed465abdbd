//! Core runs: what a run of the images' programs is, over lists of entries, with the programs, the objects and the
//! beginning as parameters.
//! It stands on `trace_theory`, `caf_events` and `object_rules`; the parts of a run, the run by steps, segment order
//! and the program stand on it.
//! It has definitions and laws alone. What is kept at every moment is `IsKept`; a trace is a core run by `IsCoreRun`,
//! that of an ordered run by `IsOrderTrace`, and lawful by `IsLawfulTrace`, which knows the declared coarrays and the
//! number of images alone.
//! Its main contract is `law_core_run`: the trace of what is kept is a core run. Runs of programs that say the same
//! (`SaysAs`) are the same: `same_laws`.
#![tactic(auto)]

pub mod laws;
pub mod order_laws;
pub mod same_laws;

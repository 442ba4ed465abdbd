//! The verdict on a trace that was given: that it is a core run, or the first step at which it isn't one.
//! It stands on `core_runs`; `judged_run` stands on it.
//! It has definitions and laws alone. Its main contracts: where the trace of a moment goes on as a core run by one
//! entry, that entry is the event that is due, behind all others (`law_next_is_due`); and by such an event the trace
//! goes on as that of the next moment (`law_trace_more`).
#![tactic(auto)]

pub mod laws;

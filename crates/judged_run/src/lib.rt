//! A trace that was given, judged step by step: in its order, each entry is made the next step of the parts of a run.
//! It stands on `image_core`, which makes the steps, on `same_entries`, which compares them, and on the laws of
//! `trace_judge`; `trace_replay` stands on it.
//! Its main contract: `judge_entries` answers that the entries are a core run exactly where they are one, and then the
//! parts are at the moment behind it; else it answers the first step by which they are none.
#![tactic(auto)]

pub mod judge;

//! The bytes of a trace, judged or replayed as one of a run of a checked program.
//! It stands on `trace_reader`, which reads them, on `checked_run`, which makes what a run of the program begins with,
//! and on `trace_replay`, which judges the trace and goes on behind it; the command that judges and replays traces
//! stands on it.
//! Its main contracts are those of `judging::judge_checked` and `replay::replay_checked`: what the bytes come to
//! (`ComesTo`) - they are written for no trace, from a line on; for one that is that of no run, from a step on; or for
//! that of a run, with its first race, and with the report of the run that goes on behind it (`IsReplayOf`).
#![tactic(auto)]

mod beginning;
mod file;
pub mod judging;
mod names;
pub mod no_run;
pub mod replay;

//! A trace that was given, judged as one of a run of a program's code, and the run that goes on behind it.
//! It stands on `judged_run`, which judges the entries of a trace step by step, on `full_parts`, whose parts make the
//! steps, on `order_report`, which brings a run to its end, and on `program_run`, which makes the machines of code;
//! `checked_traces` stands on it.
//! Its main contracts are those of `judging::judge_code` and `replay::replay_code`: the trace is a core run of each
//! program whose walks the code has, or none of any from a step on; and the report is that of a run that goes on behind
//! it (`GoesOn`).
#![tactic(auto)]

pub mod judging;
pub mod replay;

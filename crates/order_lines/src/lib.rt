//! The line that says whether a run speaks for every order of its images.
//! It stands on `decided_watch`, which finds the first entry that keeps a trace from being decided, and on `caf_report`;
//! `caf_run` stands on it. That a decided run speaks for every order is `law_every_order` of `decided_runs`.
//! Its main contract is `order_text`: the line is `every order` exactly where the trace is decided (`law_exact`); else it
//! tells the line of the entry that keeps it from that, and why.
#![tactic(auto)]

pub mod bar;
pub mod laws;
pub mod line;

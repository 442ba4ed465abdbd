//! The text of a trace, one line a step, and the words of asks and faults. It has two forms: in the first a team that
//! an ask names stands by its number in the run alone, in the second its team number, by which the program knows it,
//! stands behind a slash. The second is the one that is written.
//! It stands on `caf_events` for the trace, on `caf_text` for numbers, and on the kit's `itoa`; `caf_report` stands on
//! it.
//! Its main contract: `push_trace` appends exactly `trace_text` of the entries, each line behind the entries before it.
#![tactic(auto)]

mod ask;
mod first;
pub mod line;
mod numbers;
pub mod piece;
mod reply;
mod round;
pub mod trace;
pub mod words;

//! The end of a run of parts that are given, and its report: the whole run by the choices of a SEED, or what others
//! have left of it by rotation; its trace, the first race of that, and its end.
//! It stands on `image_core`, which makes the steps, on `race_search`, which finds the race, and on `caf_report`;
//! `full_report`, the report of a run over all objects, stands on it.
//! Its main contract is that of `report::report_order` and `report::report_rest`: the report is that of the run
//! (`IsRunReport`): its trace is a core run, and that of the order where there is one, it tells a race exactly where
//! the trace has one, and up to it each reference that isn't atomic is justified by segment order.
//! Behind the moment from which they are given the parts it has the steps of the ordered run, to its end (`IsTraceOn`).
#![tactic(auto)]

pub mod race;
pub mod report;
pub mod same_end;
mod waits;

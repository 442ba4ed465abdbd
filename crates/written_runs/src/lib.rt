//! What a run writes is written for its trace: laws of the text of a report.
//! It stands on `caf_report`, whose text this is, and on `trace_forms`, which says for which trace a file is written.
//! It has laws alone. Its main contract: `law_report_is_written`.
#![tactic(auto)]

pub mod laws;

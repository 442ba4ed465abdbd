//! Files that hold the text of a trace, in either form: for which traces a file is written, and the first bad line.
//! It stands on `trace_text`, whose lines these are, and on `object_rules`, whose replies they show; `trace_fields` and
//! `trace_reader`, which read such files, stand on it.
//! It has definitions and laws alone. Its main contract: a file is written for one trace at most (`law_written_once`).
#![tactic(auto)]

pub mod laws;

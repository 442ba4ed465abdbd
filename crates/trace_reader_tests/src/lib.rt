//! Tests of `trace_reader::read_trace`: files in either form, with other lines between, and with a bad line.
//! It stands on it, on `trace_forms`, `caf_base` and `caf_events`; nothing stands on it.
//! What is wanted was worked out by hand from the definition of a trace file. A test ends where memory is wanting.
//! It has no code besides its tests: what `read_trace` promises is proved in `trace_reader`.
#![tactic(auto)]

#[cfg(test)]
mod files;

//! The names of the coarrays of a program that a source is accepted as are names that the text of a trace can show.
//! It stands on `source_reader`, which says what a source is read as, on `rule_definitions`, which says what a program
//! is accepted as, on `checked_run`, which says what names its coarrays have, and on `trace_forms`, which says what
//! names a trace's text can show.
//! It has laws alone. Its main contract: `law_coarrays_have_names`.
#![tactic(auto)]

pub mod laws;

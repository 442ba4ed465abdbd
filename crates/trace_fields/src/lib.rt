//! Parts of a trace's line, read: numbers, values, spans, coarrays by their names, words, printed text, and what an
//! image brings to a round.
//! It stands on `trace_forms`, whose ranges say which parts a line can show, and on the kit's `indexmap`.
//! Its main contract, of each reader: where the text is that of a part in range, the result is that part. Of another
//! text the result may be any; who reads a line prints it again and compares.
#![tactic(auto)]

pub mod escapes;
pub mod fields;
pub mod lists;
pub mod names;
pub mod numbers;
pub mod rounds;
pub mod span;
pub mod words;

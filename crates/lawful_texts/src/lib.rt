//! The entries of a lawful trace can be shown by lines, where their numbers are those of the code's types.
//! It stands on `trace_forms`, which says which entries a line can show, and on `answer_laws`, by which each reply of a
//! lawful trace answers its ask.
//! It has definitions and a law alone. Its main contract: `law_lawful_has_texts`.
#![tactic(auto)]

pub mod laws;

//! That an access to a section of an array asks for a span: of as many cells as the section, in the same order.
//! It stands on `image_acts`, by which a section has its place, and on `object_rules`, which says what a span is.
//! `cell_walks` stands on it, by which the reads of a program fit. It has one law alone, its main contract
//! `law_section_is_a_span`.
#![tactic(auto)]

pub mod laws;

//! That the reads of an image, and its asks for locks, events and atoms, fit along its walk, where the blocks of its
//! program do so.
//! It stands on `stack_laws`: what an act puts down under a later one is still there, and on `section_spans`, by which a
//! section that is read has a span. `memory_fits` stands on it. Its main contract is `law_walks_fit`.
#![tactic(auto)]

pub mod laws;

//! Languages of marked words, what their texts are read as and where and why they are refused, and readers that are
//! exact.
//! It stands on std alone and knows no language of its own; it has no code to run: definitions, and laws about them.
//! On it stands `fortran_grammar` with the readers of Fortran above it. A reader that stands on it defines its words,
//! puts its reader together from the functions of `specs/Readers`, takes exactness from the lemmas of `proofs/`, and
//! proves that its code answers as that reader does.
//! Main contract: an exact reader answers each whole text as the definitions of reading and refusal say
//! (`whole_texts`).
#![tactic(auto)]

pub mod language;
pub mod limit_laws;
pub mod reader_laws;
pub mod text_laws;

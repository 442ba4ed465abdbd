//! That an image's reads, and its asks for locks, events and atoms, fit in a run of a checked program.
//! It stands on `cell_statements`, by which each statement on a lock, an event or an atom asks for one that is
//! declared, and each read is of a section of a coarray, and on `walk_laws`, which says what an image was told. Its main
//! contracts are `law_cell_asks_fit` and `law_reads_fit`.
#![tactic(auto)]

pub mod laws;

//! That each statement of a program on a lock, an event or an atom asks for one that is declared, at an image of the
//! run, and that each read of a coarray is one of a section of it, there too.
//! It stands on `cell_walks`, which says what it is for the blocks of a program to fit, and on `made_code`, which says
//! how many numbers each part of a statement puts down; `memory_fits` stands on it. Its main contract is
//! `law_blocks_fit`.
#![tactic(auto)]

pub mod laws;

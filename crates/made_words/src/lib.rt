//! The words of a made source, and the tree that they spell.
//! It stands on `plain_words`, by which its lines are cut, on `fortran_grammar`, and on `made_tree`, whose tree it
//! is; `work_maker` says what the source is.
//! Its main contract is `law_made_is_spelled`. Laws alone.
#![tactic(auto)]

pub mod laws;

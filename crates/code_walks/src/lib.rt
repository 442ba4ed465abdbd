//! Code that the machine runs has the walks of the checked program that it was made of.
//! It stands on `image_machine`, which knows no tree, and on `program_tables` and `made_code`, which know no machine;
//! what runs a program stands on it.
//! Its main contract: `law_code_has_walks_of_its_program`.
#![tactic(auto)]

pub mod laws;

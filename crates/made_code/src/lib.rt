//! The code that a checked program is made into: no instruction of it is bad, and it has the walks of its program.
//! It stands on `tree_meaning`, which says what the parts of each statement are, on `image_code`, which says what a bad
//! instruction is, and on `code_heights`; the compiler stands on it.
//! Its main contract: where each expression, designator and argument of a program has the rank that its place wants
//! (`IsRankedProgram`), its code is never refused (`law_ranked_code_is_never_bad`).
#![tactic(auto)]

pub mod laws;

//! What a checked program means: the walk of its tree. For each form of expression and statement its parts in the order
//! of evaluation, and the start of a program on each image. docs/build/MEANING.md says how to find the meaning of a
//! statement.
//! It stands on `walk_theory`, `image_acts` and `checked_tree`; what makes code of a program stands on it.
//! Its main contract: `first` gives the start that the definition says. The definitions are held to the standard's own
//! words by laws: what an expression's value is, how often a DO construct's body is begun, what a status does with
//! STAT= and without.
#![tactic(auto)]

pub mod laws;
pub mod start;

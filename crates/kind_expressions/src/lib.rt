//! That an expression leaves a number or an array of its kind, where its parts are of the types and kinds that their
//! places want.
//! It stands on `kind_walks`, which says what is known of the values of an image along its walk, and on `made_code`,
//! which says of which rank each part is; `kind_statements` is to stand on it. Its main contract is
//! `law_expressions_are_of_their_kinds`.
#![tactic(auto)]

pub mod laws;

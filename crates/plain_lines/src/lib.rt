//! Lines that need no joining: a line with no literal, comment, continuation or `;` is a statement, as it stands.
//! It stands on `fortran_lines`, whose definitions say what the lines of a file join to and what they break.
//! Its main contract is `law_plain_lines`. Laws alone.
#![tactic(auto)]

pub mod laws;

//! How high the stack of flat code stands, and how much is left to do: definitions and laws over any language.
//! It stands on `walk_theory`; `image_code` and the machine that runs it stand on it.
//! Its main contracts: code with heights keeps to them (`law_code_keeps_to_its_heights`), and one number falls at each
//! step and at each ask (`law_less_is_left`), so that every run comes to its next ask.
#![tactic(auto)]

pub mod laws;

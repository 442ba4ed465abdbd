//! The tree of a made program, and that it breaks no rule of the language.
//! It stands on `fortran_tree`, whose trees are plain data, and on `rule_definitions`, which says what breaks a rule.
//! Its main contract is `law_made_tree_is_unbroken`. Laws alone.
#![tactic(auto)]

pub mod laws;

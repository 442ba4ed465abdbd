//! A made source is good: it is read as a program that breaks no rule.
//! It stands on `source_reader`, which says what a source is read as, and on `made_words` and `made_tree`, whose laws
//! are its two halves; the answer of a run of a made source
//! stands on it.
//! Its main contract is `law_made_is_good`. Laws alone.
#![tactic(auto)]

pub mod laws;

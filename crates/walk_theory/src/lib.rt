//! The theory of walks and of flat code: a core language of parts, forms and acts, its walk by tasks, its code and the
//! generator of it.
//! It stands on `trace_theory`, and knows no statement and no operator: a language brings what its acts do.
//! The crates that say what each statement does, that make code of it, and that run that code stand on it.
//! Its main contract is `law_has_walks`: the code of a program asks what its walk asks, in both directions.
//! Each law is the contract of a function that does nothing; proofs cite the lemma of the same name in proofs/.
#![tactic(auto)]

pub mod code_laws;
pub mod iteration_laws;
pub mod term_laws;
pub mod walk_laws;

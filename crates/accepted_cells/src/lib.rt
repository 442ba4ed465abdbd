//! That each lock, event and atom that an accepted program's statements name is a declared coarray of that type.
//! It stands on `accepted_ranks`, whose lemmas of judgements and scopes it takes, and on `cell_statements`, which says
//! what typed programs are. Its main contract is `law_accepted_is_typed`, of whole programs; `law_block_is_typed` is
//! its part.
#![tactic(auto)]

pub mod laws;

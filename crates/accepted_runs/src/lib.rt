//! What the rules of the language accept is what the machine can run.
//! It stands on `rule_definitions`, which says what a program is accepted as, on `accepted_ranks`, which says that it
//! has its ranks and kinds, and on `checked_run`, which says what the machine can run. It has laws alone.
//! Its main contract is `law_accepted_can_run`: an accepted program is never refused as one that the machine can't run.
#![tactic(auto)]

pub mod laws;

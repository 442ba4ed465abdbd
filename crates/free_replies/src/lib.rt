//! What free steps hear in another run of the same programs that follows a decided trace: its memories reply the same,
//! it has no race, and the first step that it lacks comes next. It stands on `every_order`, whose definitions and
//! induction it goes on with, on `order_cuts` and `order_axioms`; definitions and laws alone. `round_words`,
//! `round_replies` and `decided_runs` stand on it. Its main contract is `law_memories`: a decided run of memories
//! alone, in which each image has ended, speaks for every order. What any such law needs is in proofs/Replies (each
//! step but those at the board hears the same) and proofs/Speaking (what a decided trace says of every other run).
#![tactic(auto)]

pub mod laws;

//! The rules of the objects of a run: which asks fit after a history, which of them can come, and what is replied.
//! It stands on `caf_base` and `caf_events`, and has definitions and laws alone, all over lists of entries.
//! The memories, the control board and the run stand on it, and so do all that judge a trace: what is lawful, its
//! races, who waits for whom.
//! A memory's rules are `memory_ready` and `memory_reply` (specs/MemoryRules), the control board's `board_ready` and
//! `board_reply` (specs/BoardRules), and `answers` says which reply answers an ask (specs/Answering).
//! Its main contracts are what one more entry makes of them, `law_value_more` and `law_closed_stays`, and that a
//! memory's replies answer their asks, `law_memory_answers`. Small runs, worked by hand, are computed in
//! proofs/MemoryRows and proofs/BoardRows.
#![tactic(auto)]

pub mod laws;

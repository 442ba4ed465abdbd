//! The rounds of a run without failures, by what each image says: when one has closed, who had stopped by then, of
//! which kind it is, what its members bring to it. It stands on `team_laws` and `answer_laws`, whose lemmas of arrivals
//! and openings it uses, and on `free_replies`; definitions and laws alone. `formed_teams`, `round_replies` and
//! `decided_runs` stand on it. Its main contract is `law_who_missed`: the members that had stopped by the close of a
//! round are those that never arrive at it.
#![tactic(auto)]

pub mod laws;

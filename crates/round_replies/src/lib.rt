//! What images hear at rounds of teams in another run of the same programs: arrivals join the same rounds, departures
//! have the same statuses, values, teams and sources, and what can come stays so. It stands on `round_words`,
//! `formed_teams` and `free_replies`; definitions and laws alone. `decided_runs` stands on it. Its main contract is
//! `law_rounds`: a decided run of memories and of rounds speaks for every order. For wider runs proofs/AnyRounds says
//! what is left to show of the ends of SYNC IMAGES and of events (`TellsTakings`).
#![tactic(auto)]

pub mod laws;

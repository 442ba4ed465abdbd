//! How many teams a run has: no more than entries at its control board, and the initial team.
//! It stands on `team_laws`, by which the teams of a round are those of its close. It has laws alone.
//! Its main contract is `law_teams_are_few`.
#![tactic(auto)]

pub mod laws;

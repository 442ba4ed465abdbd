//! The teams of runs in which FORM TEAM is of the initial team alone (ISO/IEC 1539-1:2018, 11.6.9), by what each image
//! says. It stands on `round_words`, and on `team_laws` for what teams a round makes; laws alone. `round_replies` stands
//! on it. Its main contract is `law_teams_ahead`: the teams of a run are the first ones of each run that is ahead of it.
#![tactic(auto)]

pub mod laws;

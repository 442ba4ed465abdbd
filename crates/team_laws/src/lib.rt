//! The teams of a run: that they stay as FORM TEAM made them, who their members are, and what the departure from a
//! round tells of them.
//! It stands on `object_rules`, whose `teams_after` counts the teams after a history and whose `board_reply` tells them
//! to the images that depart. It has definitions and laws alone; `answer_laws`, which says what each image of a lawful
//! trace is told, stands on it.
//! Its main contracts are `law_teams_stay`, `law_team_members` and `law_departure_told`: teams are only added, each but
//! the initial one has members of its parent alone and none twice, and a departure tells them as they are.
#![tactic(auto)]

pub mod laws;

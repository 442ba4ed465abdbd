//! FORM TEAM in the walk against what it does (ISO/IEC 1539-1:2018, 11.6.9): the round of the parent team, the teams
//! that it told, which the image knows from then on, and the team variable. It stands on `direct_meaning`, which says
//! what it does without a stack, and on `direct_control`, which has rounds and what becomes of a status; `direct_flow`,
//! which goes over statement lists, stands on it: laws alone, beside the program. Its main contract is
//! `law_form_team_does_what_it_means`.
#![tactic(auto)]

pub mod laws;

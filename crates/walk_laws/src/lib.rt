//! What checked programs ask of their run: every team that an image names is the initial one or one that it was told,
//! so that each reply answers its ask.
//! It stands on `told_programs`, by which each statement of a program names what was told alone, and on
//! `program_walks`, the runs of programs. It has definitions and laws alone; `fit_laws`, by which the next ask fits,
//! stands on it.
//! Its main contracts are `law_told_teams` and `law_next_ask_told`.
#![tactic(auto)]

pub mod laws;

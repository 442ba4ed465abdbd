//! Which steps at the control board are inert: after them each ask of every other image is as ready as it was.
//! It stands on `object_rules`, whose `board_ready` says which asks are ready, on `team_laws`, and on `inert_steps`,
//! whose `IsInert` it is about. It has definitions and laws alone; `control_board`, which tells of its steps whether
//! they are inert, stands on it.
//! Its main contracts are `law_departure_is_inert`, that departures and what only asks about images are inert, and
//! `law_arrival_is_inert`, that an arrival is which leaves its round open.
#![tactic(auto)]

pub mod laws;

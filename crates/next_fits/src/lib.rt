//! That the next ask of an image of a core run fits, for all asks together of which that is known.
//! It stands on `fit_laws`, for the asks that name what the image was told, and on `memory_fits`, for reads and
//! for those on locks, events and atoms. It has definitions and laws alone. Its main contract is `law_next_ask_fits`.
#![tactic(auto)]

pub mod laws;

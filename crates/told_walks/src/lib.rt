//! What an image names along a walk of its acts: teams that it was told, with itself among the members, indices of
//! their members, and its own coarrays, as it allocated them.
//! It stands on `image_acts`, whose acts it goes through, and on `answer_laws`, which says what an image was told. It
//! has definitions and laws alone; `told_programs`, which says it of the walks of checked programs, stands on it.
//! Its main contract is `law_named_teams_are_told`: where each ask of an image names such a team and each departure
//! follows its arrival, the image was told of every team that it names.
#![tactic(auto)]

pub mod laws;

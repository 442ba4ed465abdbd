//! What a lawful trace tells each image: every reply answers its ask, after what the image said and heard before.
//! It stands on `object_rules`, whose rules the objects keep and whose `answers` says which reply answers an ask, on
//! `core_runs`, whose lawful traces it speaks of, and on `team_laws`, which says of the board alone what teams it makes
//! and tells.
//! It has definitions and laws alone. Its main contract is `law_replies_answer`: in a lawful trace each reply to an
//! image has the number and kinds of values, the statuses, the teams with their members and the indices that its ask
//! calls for, where the image names no team but those that it was told.
#![tactic(auto)]

pub mod laws;

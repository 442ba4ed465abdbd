//! The control board of a run (ISO/IEC 1539-1:2018, 11.1.5, 11.1.6, 11.6, 16.6): rounds of the teams, collective
//! subroutines, SYNC IMAGES, CRITICAL constructs, and which images have ended.
//! It stands on `failure_status`, `team_round`, `image_sync`, `team_tree`, `collectives`, on the definitions of
//! `object_rules` and on the laws of `inert_laws`; the first parts of a run (`full_parts`) stand on it.
//! Its main contracts are those of `Object` and `Inert` for `Board`: whether an ask is ready and what is replied are
//! `board_ready` and `board_reply` of the whole history, and a step that it tells to be inert leaves every other
//! image's asks as ready as they were.
#![tactic(auto)]

pub mod board;
pub mod brought;
pub mod ending;
pub mod forming;
pub mod inert;
pub mod leaving;
pub mod parts;
pub mod planning;
pub mod ready;
pub mod reply;
pub mod step;
pub mod taking;

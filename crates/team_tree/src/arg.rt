//! What images give at a FORM TEAM, and which teams are to be made.

use caf_base::place::ImageNo;

/// What an image gives at FORM TEAM: a team number, and a NEW_INDEX, 0 where it gives none.
#[derive(Clone, Copy)]
pub struct FormArg {
    pub image: ImageNo,
    pub number: i64,
    pub new_index: i64,
}

/// A team to be made: its number, and its members in index order.
#[derive(Drop)]
pub struct Members {
    pub number: i64,
    pub images: Vec<ImageNo>,
}

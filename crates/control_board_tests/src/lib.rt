//! Tests of `control_board`: small histories whose replies were worked out by hand.
//! It stands on the board; nothing stands on it.
//! It has no code besides its tests: what a board replies is proved there, and these show that with ample memory it
//! replies at all.
#![tactic(auto)]

#[cfg(test)]
mod rounds;

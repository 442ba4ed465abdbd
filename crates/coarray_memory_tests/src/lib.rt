//! Tests of `coarray_memory`, and with it of `event_lock` and `atomic_subs`: small histories whose replies were worked
//! out by hand.
//! It stands on the memory; nothing stands on it.
//! It has no code besides its tests: what a memory replies is proved there, and these show that with ample memory it
//! replies at all.
#![tactic(auto)]

#[cfg(test)]
mod accesses;
#[cfg(test)]
mod asks;
#[cfg(test)]
mod variables;

//! What an ordered run keeps of its images from one step to the next: which can step, as far as it is known, where each
//! is filed, and the asks that are known.
//! It stands on `caf_events` and `core_runs`; that it is so of a moment of a run is said by `image_core` (`Knows`),
//! which keeps it.
//! Its main contracts are those of `Outlook`: `learn` and `forget_image` change what is known of one image,
//! `forget_place` makes those stale that are filed at a place.
#![tactic(auto)]

pub mod image_set;
pub mod next_asks;
pub mod outlook;

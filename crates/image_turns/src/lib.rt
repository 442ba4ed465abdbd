//! One image that makes its steps at the gates of a run, beside other images: a step by itself, a step at the gate of
//! its next ask, and all its steps until it must wait.
//! It stands on `image_core` for the image, on `image_gate` for the gates and on `worker_laws` for what its events have
//! to do with what it has seen; the workers stand on it.
//! Its main contract is that of `turns::run_image`: whatever the other images do meanwhile, the image's events go on to
//! be a walk of its program, linked with what its passes have seen of each object (`StaysOn`).
#![tactic(auto)]

pub mod looks;
pub mod turns;

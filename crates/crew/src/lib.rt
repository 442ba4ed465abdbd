//! Images on workers: each worker runs some of the images of a run in turn, each until it must wait, at gates round the
//! memories and the board.
//! It stands on `image_turns` for one image's steps, on `image_gate` for the gates and on `worker_laws` for where the
//! images have come; runs without a stated order stand on it.
//! Its main contract is that of `running::run_crew`: the parts come back at a moment of the run that they are parts of,
//! so that their trace is a core run, and where no image made a step that ends the run, each has ended or waits
//! (`AreLeft`).
#![tactic(auto)]

mod dealing;
mod member;
mod resting;
pub mod running;
mod worker;

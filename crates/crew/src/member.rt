//! An image of a crew, and a worker.

use crate::resting::Pause;
use image_core::run::ImageRun;
use image_gate::passes::Passes;
use image_turns::looks::Spin;

/// An image with its passes for the gates of its run.
#[derive(Drop)]
pub(crate) struct Member<M> {
    pub run: ImageRun<M>,
    pub passes: Passes,
    /// Why it isn't asked for now.
    pub pause: Pause,
    /// Its last looks.
    pub spin: Spin,
}

/// A worker with the images that it runs.
#[derive(Drop)]
pub(crate) struct Worker<M> {
    /// Its number, from 0.
    pub number: u32,
    pub members: Vec<Member<M>>,
    /// Whether memory was wanting.
    pub short: bool,
}

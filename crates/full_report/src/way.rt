//! How the images of a run take turns.

/// How the images of a run take turns.
#[derive(Clone, Copy)]
pub enum Way {
    /// One after another, each step by the image that the order of this SEED chooses: the rotation for 0, else the
    /// generator from this state on.
    Order(u32),
    /// At the same time, on so many workers (0 is taken as 1); what these leave is finished by rotation.
    Workers(u32),
}

//! The asks of an image: what an ask step comes to, the ask and its place, and how the core goes on with the reply.
//! It stands on `image_state` and `coarray_tables`; the machine of an image stands on it. A family of asks has a file:
//! accesses, single cells, allocation, collective subroutines, teams, output and SYNC IMAGES, and the end of an image.
//! Its main contract: `ask_of` makes the ask that `operate` says of the step, and `hear` leaves the core that it says
//! of the reply. Only an ask takes memory, and one of a single cell none.
#![tactic(auto)]

mod accesses;
mod allocating;
pub mod asks;
mod cells;
mod collectives;
mod endings;
mod operands;
mod output;
mod replies;
mod teams;
mod values;

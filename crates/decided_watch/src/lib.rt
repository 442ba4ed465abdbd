//! Whether a trace is decided, in one pass: so that its one run speaks for every order of the images.
//! It stands on `every_order`, which says what a decided trace is, and on `race_watch` for what an entry is to segment
//! order; `order_lines` stands on it. It asks no board and no memory, and leaves races to who searched for them.
//! Its main contract is `first_undecided`: the first entry that keeps the trace from being decided, with the reason, or
//! none; `law_decided` says that a trace without such an entry and without a race is decided, and no other.
#![tactic(auto)]

pub mod events;
pub mod free;
pub mod laws;
pub mod watch;

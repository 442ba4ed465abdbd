//! Tests of `caf_events` and `caf_report`: asks, replies and events copied and kept, and the text of a report.
//! It stands on these and on `caf_base`; nothing stands on it.
//! What is wanted was worked out by hand. A test ends where memory is wanting, so that none gives up what is half made.
//! It has no code besides its tests: what the two crates promise is proved there.
#![tactic(auto)]

#[cfg(test)]
mod events;
#[cfg(test)]
mod reports;

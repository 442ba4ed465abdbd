//! Clocks of segments: for each image how many of its segments precede.
//! It stands on `caf_base` alone; the recorder of segment order stands on it (`race_watch`, `race_search`;
//! docs/build/ORDER.md).
//! Its main contract: `Clock::join` takes the greater count of each image, and `Clock::covers` is true exactly
//! where a segment's number is below its image's count (segments: ISO/IEC 1539-1:2018, 11.6.2).
#![tactic(auto)]

pub mod clock;
#[cfg(test)]
mod tests;

//! The machine of an image: it runs flat code from ask to ask.
//! It stands on `image_code`, `image_steps`, `image_asks` and `act_sizes`; a run stands on it. It runs code whose kinds
//! and ranks are such as made code has (`ArePlain`). An operand that isn't there is the run fault Bounds.
//! Its main contract is `impl Walker for Machine`: after each event that it is given, it stands where its code stands
//! by the instruction table; it comes to its next ask or ends, and takes no memory but for what an ask holds (the text
//! of a PRINT, values, the images of SYNC IMAGES), and before a departure for the teams that it may tell (`reserve`).
#![tactic(auto)]

mod engine;
pub mod machine;

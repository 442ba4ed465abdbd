//! That each act of an image's program moves the stack as its size says, which `image_code` takes for the heights of
//! code.
//! It stands on `image_acts` and `image_code`; the machine of an image stands on it, whose room for the stack is made
//! once.
//! Its main contract is `law_acts_have_their_sizes`. Laws alone.
#![tactic(auto)]

pub mod laws;

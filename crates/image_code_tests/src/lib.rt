//! Tests of `image_code`: drafts that become code, and drafts that are refused, each with the place of its first bad
//! instruction. They show what no clause says, that there is memory for them.
#![tactic(auto)]

#[cfg(test)]
mod drafts;

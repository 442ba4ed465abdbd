//! The code of calls of intrinsic subroutines (ISO/IEC 1539-1:2018, 16.9): it is put behind a draft of code.
//! It stands on `tree_meaning`, which says what they do and in what order, on `expr_code`, and on `control_code` and
//! `assignment_code`, whose functions settle a status and write to coarrays. `statement_code` stands on it.
//! Its main contract is that of `push_intrinsic_call`: behind the draft stands the code of the call's parts.
#![tactic(auto)]

pub mod argument;
pub mod atomic;
pub mod collected;
pub mod collective;
pub mod subroutine;

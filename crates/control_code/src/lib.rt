//! The code of image control statements (ISO/IEC 1539-1:2018, 11.6), and of what CRITICAL, CHANGE TEAM and END TEAM do
//! (11.1.5, 11.1.6): it is put behind a draft of code.
//! It stands on `tree_meaning`, which says what these statements do and in what order, and on `expr_code`, whose
//! functions append the code of the expressions in them. `statement_code` stands on it.
//! Its main contracts are those of `push_sync_all`, `push_lock` and the like: behind the draft stands the code of the
//! statement's parts.
#![tactic(auto)]

pub mod event;
pub mod image_control;
pub mod settling;

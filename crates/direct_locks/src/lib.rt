//! The statements of locks and events in the walk against what they do (ISO/IEC 1539-1:2018, 11.6.7, 11.6.8, 11.6.10):
//! LOCK, UNLOCK, EVENT POST and EVENT WAIT, of a cell of a coarray on an image. It stands on `direct_meaning`, which
//! says what they do without a stack, and on `direct_control`, which has what becomes of a status; `direct_flow`, which
//! goes over statement lists, stands on it: laws alone, beside the program. Its main contract is
//! `law_lock_statement_does_what_it_means`.
#![tactic(auto)]

pub mod laws;

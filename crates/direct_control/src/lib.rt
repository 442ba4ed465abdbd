//! Image control statements and constructs in the walk against what they do (ISO/IEC 1539-1:2018, 11.1.6, 11.6): SYNC
//! ALL, SYNC MEMORY, SYNC IMAGES, SYNC TEAM and CRITICAL, with the round that an arrival joins, what each reply gives
//! and what becomes of the status. It stands on `direct_meaning`, which says what they do without a stack, and on
//! `direct_released` and `direct_walks`; `direct_flow`, which goes over statement lists, stands on it: laws alone,
//! beside the program. Its main contract is `law_control_statement_does_what_it_means`.
#![tactic(auto)]

pub mod laws;

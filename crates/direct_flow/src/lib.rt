//! The walk of statement lists and of the constructs of control against what they do (ISO/IEC 1539-1:2018, 11.1): IF,
//! SELECT CASE, DO with a variable, DO WHILE, DO, EXIT, CYCLE, RETURN, CRITICAL and CHANGE TEAM, over assignments,
//! PRINT, STOP, ERROR STOP, FAIL IMAGE and image control statements. It stands on `direct_meaning`, which says what
//! they do without a stack, a hidden cell or a jump, on `direct_released`, `direct_control`, `direct_locks`,
//! `direct_teams` and `direct_forming`, which have the statements, and on `direct_hidden`: laws alone, beside the
//! program. Its main contract is `law_program_does_what_it_means`: a program of these statements, without calls, has
//! the asks that its meaning says, from its start on and without a further premise.
#![tactic(auto)]

pub mod laws;

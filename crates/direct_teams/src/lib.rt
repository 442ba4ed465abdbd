//! CHANGE TEAM constructs in the walk against what they do (ISO/IEC 1539-1:2018, 11.1.5): the team that is named and
//! the one that becomes current, the rounds at both ends, and the coarrays that END TEAM deallocates. It stands on
//! `direct_meaning`, which says what they do without a stack, and on `direct_control`, which has rounds and what
//! becomes of a status; `direct_flow`, which goes over statement lists, stands on it: laws alone, beside the program.
//! Its main contract is `law_team_construct_does_what_it_means`.
#![tactic(auto)]

pub mod laws;

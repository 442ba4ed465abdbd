//! Image control statements, judged (ISO/IEC 1539-1:2018, 11.6): SYNC, FORM TEAM, LOCK, UNLOCK, EVENT POST and EVENT
//! WAIT; rules 20, 37, 39 and 48 to 52.
//! That they stand in no CRITICAL block is said where statements are.
//! It stands on `shared_rules` and `subroutine_rules`; the rules of action statements stand on it.
//! Its main contract: each function of a statement gives the judgement that the definition of its arm in
//! `judged_action` says.
#![tactic(auto)]

pub mod image;
pub mod lock;

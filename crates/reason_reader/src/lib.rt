//! Why a file of Fortran is refused, from the words of the statement that fails (ISO/IEC 1539-1:2018, 5.1 and clause
//! 11).
//! It stands on `refusal_reasons`, whose specs/Statements it computes, and on `expr_reader`; who uses it says how a
//! part of a form ends.
//! Main contract: that of `reason::statement_place`: how many words there are from the first on at which a level too
//! deep is open, among all statements that go on with the words, or that there is none.
#![tactic(auto)]

pub mod form;
pub mod reason;

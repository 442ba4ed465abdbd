//! Actions that begin with a keyword read from words (ISO/IEC 1539-1:2018, R515): all but assignments and one-line IFs.
//! It stands on `action_reader`, whose lists, brackets, designators and arguments it uses, and on `statement_reader`,
//! whose specs/Keywords says what is read.
//! Its main contract is that of `action::keyword_action`: it gives what `keyword_line` answers, the action at its place
//! and the words behind the end of its statement, or where and why reading stops.
#![tactic(auto)]

pub mod action;
pub mod allocate;
pub mod cobound;
pub mod dimension;
pub mod flow;
pub mod image;
pub mod object;
pub mod output;

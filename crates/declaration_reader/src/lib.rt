//! Type declaration statements (ISO/IEC 1539-1:2018, 8.2) and FUNCTION statements (15.6.2.2) read from words, each with
//! the end of its statement.
//! It stands on `action_reader`, whose lists and brackets it uses, and on `statement_reader`, whose specs say what is
//! read; it stands beside `part_reader`.
//! Its main contracts are those of `declaration::declaration` and `function::function`: each gives what the reader of
//! its form in `statement_reader` answers, the tree and the words behind it, or where and why reading stops.
#![tactic(auto)]

pub mod attribute;
pub mod cobound;
pub mod declaration;
pub mod dimension;
pub mod entity;
pub mod function;
pub mod kind;

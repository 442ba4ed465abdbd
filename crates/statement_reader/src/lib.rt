//! Statements of Fortran (ISO/IEC 1539-1:2018) read from tokens: the parts of a program, each with the end of its
//! statement.
//! It stands on `expr_reader`, whose readers of expressions it uses, and on `fortran_grammar` and `reader_theory`.
//! Its readers are functions on lists of tokens (specs/Forms has one for each form of parts); what is proved of them is
//! in specs/Laws.
//! Main contract: at every place, with as many levels open as may be, each text of tokens gets the answer that the
//! grammar wants (`parts_exactly`).
#![tactic(auto)]

pub mod law;

//! A file of Fortran (ISO/IEC 1539-1:2018, 5.1) as one sequence of parts: which part may follow which, and the program
//! that they make.
//! It stands on `statement_reader`, whose readers of parts it puts one behind the other, and on `fortran_grammar` and
//! `reader_theory`.
//! specs/Sequence says what is open at a place, which forms it allows, and what a part makes of it; specs/Nesting lists
//! a tree's parts.
//! Main contract: the reader of a whole file finds the parts of the program that its tokens are, or gives up where the
//! grammar wants it (`programs_exactly`).
#![tactic(auto)]

pub mod law;

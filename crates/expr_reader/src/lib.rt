//! Expressions of Fortran (ISO/IEC 1539-1:2018, 10.1) read from a statement's tokens.
//! It stands on `fortran_tokens`, `fortran_tree`, `fortran_grammar` and `reader_theory`; `statement_reader` stands on
//! it.
//! Its readers are in specs/Reading, specs/Pieces, specs/Selectors and specs/Full, as functions on lists of tokens;
//! what is proved of them is in specs/Laws:
//! each text of tokens gets the answer that the grammar wants, as a whole text and as one that may go on, and no text
//! is two expressions.
//! Main contract: `read::read_expr` gives the longest expression that begins the words, or the place where none goes
//! on, by the grammar alone (specs/Greedy, specs/Longest);
//! `expr::expression`, which the readers of statements call, gives what `(full left).expression` of specs/Full answers.
#![tactic(auto)]

pub mod error;
pub mod expr;
pub mod law;
pub mod one;
pub mod piece;
pub mod read;
pub mod token;
pub mod tree;
pub mod word;

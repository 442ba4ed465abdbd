//! What the tokens of a source stand for in the grammar: names in lower case, the values of numbers, the characters of
//! literals, and behind each statement its end.
//! It stands on `fortran_tokens`, whose tokens it takes, and on `expr_reader`, whose words it makes; the reader of
//! files stands on it.
//! Its main contract is that of `words`: the words are exactly what the source's tokens stand for, statement by
//! statement, or the first statement that can't be cut is refused as `fortran_tokens` says.
//! The definitions are in specs/Words, over those of a statement's tokens in `expr_reader`.
#![tactic(auto)]

pub mod kind;
pub mod law;
pub mod source;

pub use source::words;

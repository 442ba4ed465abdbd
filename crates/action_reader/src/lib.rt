//! Parts of statements (ISO/IEC 1539-1:2018, R515 and what it needs) read from words: keywords, brackets, lists, names,
//! specifiers, designators, arguments, and assignments.
//! It stands on `expr_reader`, whose expressions and words it takes, and on `statement_reader`, whose readers say what
//! is read; `part_reader` stands on it.
//! Its main contracts are those of `Reads` and the functions beside it: each gives what the reader of the same part in
//! `statement_reader` answers, the tree and the words behind it, or where and why reading stops. `in_round`,
//! `in_square`, `list` and `further` do so for any part.
#![tactic(auto)]

pub mod designator;
pub mod key;
pub mod names;
pub mod reads;
pub mod specifier;

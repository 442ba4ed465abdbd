//! The tokens of a statement (ISO/IEC 1539-1:2018, 6.2): names, integer literals, character literals, operators and
//! signs.
//! It stands on `fortran_lines`, `caf_base` and `thiserror`; `fortran_grammar`, `fortran_layout` and
//! `fortran_print` stand on it, for its signs, and `token_words`, which makes words of its tokens.
//! Its main contract is that of `tokens`: they are the longest matches of one table of forms, one after the other, with
//! `::` in brackets cut in two; a refusal stands exactly where no form begins, or where a token breaks a limit.
//! The definitions are in specs/Forms (the table), specs/Cuts (longest matches, limits) and specs/Tokens (the answers).
#![tactic(auto)]

pub mod byte;
pub mod cut;
pub mod fault;
pub mod law;
pub mod limit;
pub mod place;
pub mod scan;
pub mod statement;
pub mod token;

pub use fault::TokenFault;
pub use statement::tokens;
pub use token::{Sign, Token, TokenKind};

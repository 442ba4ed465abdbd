//! Words of plain lines: lines that are written token by token, at most one blank between two, have these tokens at
//! these places.
//! It stands on `plain_lines`, which says what plain lines join to, and on `token_words`, whose words of a source
//! they are.
//! Its main contract is `law_written_lines`. Laws alone.
#![tactic(auto)]

pub mod laws;

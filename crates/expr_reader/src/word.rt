//! The tokens of a statement as the grammar sees them, in memory.

use caf_base::listing::Text;
use caf_base::place::Pos;
use fortran_tokens::token::Sign;
use fortran_tree::expr::NumberKind;

/// What a token is (ISO/IEC 1539-1:2018, 6.2).
#[derive(Drop)]
pub enum WordKind {
    /// A name or a keyword, in lower case.
    Name(Text),
    /// An integer literal: its value, and the kind that is written behind it.
    Integer { value: u64, kind: NumberKind },
    /// The characters of a character literal, a doubled delimiter being one.
    Literal(Text),
    /// An operator, a logical literal or a delimiter.
    Fixed(Sign),
    /// The end of the statement, just past its last token.
    End,
}

/// A token at the place of its first byte.
#[derive(Drop)]
pub struct Word {
    pub kind: WordKind,
    pub at: Pos,
}

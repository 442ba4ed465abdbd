//! Why a statement has no tokens.

use caf_base::place::Pos;
use thiserror::Error;

/// What is wrong in a statement, and its place.
#[derive(Clone, Copy, Debug, Error)]
pub enum TokenFault {
    /// A byte that begins no token, the 64th character of a name, or what may not stand in a literal.
    #[error("BadCharacter at {}:{}", .at.line, .at.col)]
    BadCharacter { at: Pos },
    /// An integer literal above 9,223,372,036,854,775,807, at its first digit.
    #[error("NumberTooWide at {}:{}", .at.line, .at.col)]
    NumberTooWide { at: Pos },
}

/// Why no token stands at a place of a statement's text: a byte may not stand there, or an integer is too great.
#[derive(Clone, Copy)]
pub enum Excess {
    /// The byte that stands so far behind the first one may not stand there.
    Character(usize),
    /// Its number is too wide.
    Number,
}

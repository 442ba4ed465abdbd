//! A text, cut into its longest tokens.

ghost use Rattle.std.specs.Prelude.{◌≡◌, ◌<◌, ◌≤◌, length, IfOk, IfErr};
ghost use Rattle.fortran_lines.specs.Causes.{IfCause};
ghost use Rattle.fortran_tokens.specs.Cuts.{IsCut, IsToken, IsWrong, IsStopped};

use crate::byte::is_blank;
use crate::fault::Excess;
use crate::limit::excess_of;
use crate::scan::longest_form;
use crate::token::TokenKind;
use caf_base::refusal::Refusal;
use std::alloc::Global;

/// A token without its place.
#[derive(Clone, Copy)]
pub struct Piece {
    pub kind: TokenKind,
    pub from: u32,
    pub to: u32,
}

/// Something that is wrong in a text: the text is cut up to `end`.
#[derive(Clone, Copy)]
pub struct Wrong {
    pub end: usize,
    pub excess: Excess,
}

/// The token at the front of a text and its length, or what is wrong there.
fn next(text: &[u8]) -> Result<(TokenKind, usize), Excess>
    ensures token { IfOk result (λ r. IsToken text.now r.0 r.1) }
    ensures positive { IfOk result (λ r. 1 ≤ r.1) }
    ensures within { IfOk result (λ r. r.1 ≤ length text.now) }
    ensures wrong { IfErr result (λ excess. IsWrong text.now excess) }
{
    let Some((kind, len)) = longest_form(text) else {
        return Err(Excess::Character(0));
    };
    match excess_of(kind, &text[..len]) {
        None => Ok((kind, len)),
        Some(excess) => Err(excess),
    }
}

/// The tokens of a text, in order; `::` is one of them also within brackets.
pub fn pieces_of(alloc: Global, text: &[u8]) -> Result<Vec<Piece>, Refusal<Wrong>>
    requires { length text.now < 4294967295 }
    ensures cut { IfOk result (λ pieces. IsCut text.now 0 pieces.items (length text.now)) }
    ensures stopped { IfErr result (λ refusal. IfCause refusal (λ wrong. IsStopped text.now wrong)) }
{
    let mut pieces = Vec::new(alloc);
    let mut at = 0;
    while at < text.len() {
        if is_blank(text[at]) {
            at += 1;
        } else {
            match next(&text[at..]) {
                Ok((kind, len)) => {
                    pieces.push(Piece {
                        kind,
                        from: at as u32,
                        to: (at + len) as u32,
                    })?;
                    at += len;
                }
                Err(excess) => {
                    return Err(Refusal::Cause(Wrong { end: at, excess }));
                }
            }
        }
    }
    Ok(pieces)
}

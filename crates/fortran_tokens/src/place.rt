//! The tokens of a statement with their places, `::` within brackets cut in two.

ghost use Rattle.std.specs.Prelude.{◌≡◌, ◌+◌, ◌<◌, [], ◌∷◌, ◌++◌, length, map, IfOk, OnOk, All, Some, slice_get};
ghost use Rattle.fortran_tokens.specs.Cuts.{LiesWithin, distance_of};
ghost use Rattle.fortran_tokens.specs.Tokens as spec;

use crate::cut::{Piece, Wrong};
use crate::fault::{Excess, TokenFault};
use crate::token::{Sign, Token, TokenKind};
use caf_base::place::Pos;
use caf_base::refusal::NoMemory;
use std::alloc::Global;

/// Whether it is `::`.
fn is_colons(kind: TokenKind) -> bool
    ensures { result ≡ spec.is_colons kind }
{
    matches!(kind, TokenKind::Fixed(Sign::Colons))
}

/// How many brackets are open behind a token.
fn depth_behind(depth: usize, kind: TokenKind) -> usize
    requires { depth < 4294967295 }
    ensures { result ≡ spec.depth_behind depth kind }
{
    match kind {
        TokenKind::Fixed(Sign::OpenRound | Sign::OpenSquare | Sign::OpenArray) => depth + 1,
        TokenKind::Fixed(Sign::CloseRound | Sign::CloseSquare | Sign::CloseArray) => {
            depth.saturating_sub(1)
        }
        _ => depth,
    }
}

/// Adds a token with the place of its first byte.
fn push_token(tokens: &mut Vec<Token>, piece: Piece, at: &[Pos]) -> Result<(), NoMemory>
    requires { piece.from < length at.now }
    ensures pieces { OnOk result (map spec.piece_of tokens.new.items ≡ map spec.piece_of tokens.old.items ++ piece ∷ []) }
    ensures places { OnOk result (All (λ t. slice_get at.now t.from ≡ Some t.at) tokens.old.items → All (λ t. slice_get at.now t.from ≡ Some t.at) tokens.new.items) }
{
    tokens.push(Token {
        kind: piece.kind,
        from: piece.from,
        to: piece.to,
        at: at[piece.from as usize],
    })?;
    Ok(())
}

/// Adds a token, or its halves where it is `::` and brackets are open.
fn push_halved(
    tokens: &mut Vec<Token>,
    depth: usize,
    piece: Piece,
    at: &[Pos],
) -> Result<(), NoMemory>
    requires { LiesWithin (length at.now) piece (spec.is_colons piece.kind) }
    ensures pieces { OnOk result (map spec.piece_of tokens.new.items ≡ map spec.piece_of tokens.old.items ++ spec.halved depth piece) }
    ensures places { OnOk result (All (λ t. slice_get at.now t.from ≡ Some t.at) tokens.old.items → All (λ t. slice_get at.now t.from ≡ Some t.at) tokens.new.items) }
{
    if is_colons(piece.kind) && depth > 0 {
        let kind = TokenKind::Fixed(Sign::Colon);
        let middle = piece.from + 1;
        let (from, to) = (piece.from, piece.to);
        push_token(
            tokens,
            Piece {
                kind,
                from,
                to: middle,
            },
            at,
        )?;
        push_token(
            tokens,
            Piece {
                kind,
                from: middle,
                to,
            },
            at,
        )
    } else {
        push_token(tokens, piece, at)
    }
}

/// The tokens with their places.
pub fn placed(alloc: Global, pieces: &[Piece], at: &[Pos]) -> Result<Vec<Token>, NoMemory>
    requires few { length pieces.now < 4294967295 }
    requires within { All (λ p. LiesWithin (length at.now) p (spec.is_colons p.kind)) pieces.now }
    ensures pieces { IfOk result (λ tokens. map spec.piece_of tokens.items ≡ spec.with_halves 0 pieces.now) }
    ensures places { IfOk result (λ tokens. All (λ t. slice_get at.now t.from ≡ Some t.at) tokens.items) }
{
    let mut tokens = Vec::new(alloc);
    let mut depth = 0;
    for piece in pieces {
        push_halved(&mut tokens, depth, *piece, at)?;
        depth = depth_behind(depth, piece.kind);
    }
    Ok(tokens)
}

/// What is wrong, with its place.
pub fn fault_of(wrong: Wrong, at: &[Pos]) -> TokenFault
    requires { wrong.end + distance_of wrong.excess < length at.now }
    ensures { spec.IsFaultOf at.now wrong result }
{
    match wrong.excess {
        Excess::Character(n) => TokenFault::BadCharacter {
            at: at[wrong.end + n],
        },
        Excess::Number => TokenFault::NumberTooWide { at: at[wrong.end] },
    }
}

//! An expression by itself: the longest that begins a text of words.

ghost use Rattle.std.specs.Prelude.{◌≡◌, ◌≤◌, ◌-◌, length, drop};
ghost use Rattle.caf_base.specs.declared.limits.TheConstants.{NESTING};
ghost use Rattle.fortran_tree.specs.ExpressionViews as view;
ghost use Rattle.expr_reader.specs.Greedy.{place_at, cause_told, place_told, IsRead};
ghost use Rattle.expr_reader.specs.Results.{cause_of};
ghost use Rattle.expr_reader.specs.Words.{tokens_of};

use crate::error::{Cause, ReadError};
use crate::expr::expression;
use crate::word::Word;
use caf_base::limits::NESTING;
use caf_base::place::Pos;
use caf_base::refusal::Refusal;
use fortran_tree::expr::Expr;
use std::alloc::Global;

/// Why no expression is read, and its place.
#[derive(Clone, Copy)]
pub enum ReadFault {
    /// No expression goes on with the token at this place, or the words end there where more is wanted.
    Expected { at: Pos },
    /// A level begins with the token at this place, and as many as may be are open already.
    TooDeep { at: Pos },
}

/// The fault of this cause.
fn fault_at(cause: Cause, at: Pos) -> ReadFault
    ensures cause { cause_told result ≡ cause_of cause }
    ensures place { place_told result ≡ at }
{
    match cause {
        Cause::Expected => ReadFault::Expected { at },
        Cause::TooDeep => ReadFault::TooDeep { at },
    }
}

/// Where the last `left` words begin; `end` where there are none.
fn place_of_last(words: &[Word], left: usize, end: Pos) -> Pos
    requires { left ≤ length words.now }
    ensures { result ≡ place_at end (tokens_of (drop (length words.now - left) words.now)) }
{
    let rest = &words[words.len() - left..];
    match rest.split_first() {
        Some((word, _)) => word.at,
        None => end,
    }
}

/// The longest expression (ISO/IEC 1539-1:2018, 10.1.2.2, R1022) that begins the words, and the words behind it;
/// `level` levels are open there, and `end` is the place where the words end. Otherwise the first token that fits none,
/// or at which a level too deep begins.
pub fn read_expr<'a>(
    alloc: Global,
    words: &'a [Word],
    end: Pos,
    level: u32,
) -> Result<(Expr, &'a [Word]), Refusal<ReadFault>>
    requires { level ≤ NESTING }
    ensures { IsRead level end (λ r. (view.expression r.0, tokens_of r.1.now)) (tokens_of words.now) result }
{
    match expression(alloc, words, NESTING - level) {
        Ok(read) => Ok(read),
        Err(ReadError::Memory) => Err(Refusal::NoMemory),
        Err(ReadError::Stopped(stop)) => {
            let at = place_of_last(words, stop.left, end);
            Err(Refusal::Cause(fault_at(stop.cause, at)))
        }
    }
}

//! Why the lines of a file do not join.

ghost use Rattle.std.specs.Prelude.{◌≡◌};
ghost use Rattle.fortran_lines.specs.Faults as spec;

use caf_base::place::Pos;
use thiserror::Error;

/// A break of the rules of free source form, and its place. At one place the variants rank as they stand here.
#[derive(Clone, Copy, Debug, Error)]
pub enum LineFault {
    /// A byte above 127 outside comments.
    #[error("NotAscii at {}:{}", .at.line, .at.col)]
    NotAscii { at: Pos },
    /// A line of more than 1,000 bytes, at column 1,001.
    #[error("LineTooLong at {}:{}", .at.line, .at.col)]
    LineTooLong { at: Pos },
    /// A continuation with no line left, at its `&`.
    #[error("DanglingContinuation at {}:{}", .at.line, .at.col)]
    DanglingContinuation { at: Pos },
    /// A literal that is neither closed on its line nor continued, at its opening quote.
    #[error("OpenLiteral at {}:{}", .at.line, .at.col)]
    OpenLiteral { at: Pos },
}

/// Where the fault is.
pub fn fault_place(fault: LineFault) -> Pos
    ensures { result ≡ spec.fault_place fault }
{
    match fault {
        LineFault::NotAscii { at }
        | LineFault::LineTooLong { at }
        | LineFault::DanglingContinuation { at }
        | LineFault::OpenLiteral { at } => at,
    }
}

/// The rank of a fault among those at one place, from 1.
pub fn rank_of(fault: LineFault) -> u32
    ensures { result ≡ spec.rank_of fault }
{
    match fault {
        LineFault::NotAscii { .. } => 1,
        LineFault::LineTooLong { .. } => 2,
        LineFault::DanglingContinuation { .. } => 3,
        LineFault::OpenLiteral { .. } => 4,
    }
}

/// Whether one fault stands before the other.
pub fn is_before(one: LineFault, other: LineFault) -> bool
    ensures { result ≡ spec.is_before one other }
{
    let (here, there) = (fault_place(one), fault_place(other));
    if here.line != there.line {
        here.line < there.line
    } else if here.col != there.col {
        here.col < there.col
    } else {
        rank_of(one) < rank_of(other)
    }
}

/// The first of the faults so far, and one more.
pub fn first_with(so_far: Option<LineFault>, fault: LineFault) -> Option<LineFault>
    ensures { result ≡ spec.first_with so_far fault }
{
    match so_far {
        Some(first) if !is_before(fault, first) => Some(first),
        _ => Some(fault),
    }
}

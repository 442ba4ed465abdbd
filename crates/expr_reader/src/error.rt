//! Why nothing was read.

ghost use Rattle.std.specs.Prelude.{◌≡◌};

use caf_base::refusal::NoMemory;
use std::alloc::{AllocError, AllocFailed};

/// Why reading stops at a token: no text that the grammar allows goes on with it, or the 65th level begins at it.
#[derive(Clone, Copy, PartialEq, Eq, Debug)]
pub enum Cause {
    Expected,
    TooDeep,
}

/// Where and why reading stops. The place is told by the number of words from it on: 0 just past the end.
#[derive(Clone, Copy, PartialEq, Eq, Debug)]
pub struct Stop {
    pub cause: Cause,
    pub left: usize,
}

/// Memory ran out, or reading stopped.
#[derive(Debug, Drop)]
pub enum ReadError {
    Memory,
    Stopped(Stop),
}

impl From<NoMemory> for ReadError {
    ghost use Rattle.std.specs.Prelude.{◌≡◌};
    ghost use Rattle.expr_reader.specs.declared.error.ReadError.TheVariants.{Memory};

    ghost from_gives = { λ _ e. e ≡ Memory };

    fn from(_: NoMemory) -> ReadError {
        ReadError::Memory
    }
}

impl From<AllocError> for ReadError {
    ghost use Rattle.std.specs.Prelude.{◌≡◌};
    ghost use Rattle.expr_reader.specs.declared.error.ReadError.TheVariants.{Memory};

    ghost from_gives = { λ _ e. e ≡ Memory };

    fn from(_: AllocError) -> ReadError {
        ReadError::Memory
    }
}

impl<T: Drop> From<AllocFailed<T>> for ReadError {
    ghost use Rattle.std.specs.Prelude.{◌≡◌};
    ghost use Rattle.expr_reader.specs.declared.error.ReadError.TheVariants.{Memory};

    ghost from_gives = { λ _ e. e ≡ Memory };

    fn from(_: AllocFailed<T>) -> ReadError {
        ReadError::Memory
    }
}

/// No text goes on at the first of `left` words.
pub fn expected(left: usize) -> ReadError
    ensures { result ≡ ReadError.Stopped (record { cause = Cause.Expected; left = left }) }
{
    ReadError::Stopped(Stop {
        cause: Cause::Expected,
        left,
    })
}

/// A level too deep begins at the first of `left` words.
pub fn too_deep(left: usize) -> ReadError
    ensures { result ≡ ReadError.Stopped (record { cause = Cause.TooDeep; left = left }) }
{
    ReadError::Stopped(Stop {
        cause: Cause::TooDeep,
        left,
    })
}

//! A named file read whole.

ghost use Rattle.std.specs.Prelude.{◌≡◌, ◌≤◌, ◌<◌, ◌^◌, IfOk, OnOk, IsErrOf, vec_len};
ghost use Rattle.caf_base.specs.Outside.{MayNotBegin};
ghost use Rattle.caf_run.specs.Reading.{HasBytesIfTold, HasNothingLeft, IsLonger};

use caf_base::outside::{Failed, Source};
use std::alloc::{AllocError, Global};

/// Why a file is not read.
#[derive(Clone, Copy)]
pub enum ReadEnd {
    /// A call to the source failed.
    Fault,
    /// The file has more bytes than the limit.
    TooLong,
    NoMemory,
}

impl From<Failed> for ReadEnd {
    ghost use Rattle.std.specs.Prelude.{◌≡◌};
    ghost use Rattle.caf_run.specs.declared.reading.ReadEnd.TheVariants.{Fault};

    ghost from_gives = { λ _ end. end ≡ Fault };

    fn from(_: Failed) -> ReadEnd {
        ReadEnd::Fault
    }
}

impl From<AllocError> for ReadEnd {
    ghost use Rattle.std.specs.Prelude.{◌≡◌};
    ghost use Rattle.caf_run.specs.declared.reading.ReadEnd.TheVariants as ends;

    ghost from_gives = { λ _ end. end ≡ ends.NoMemory };

    fn from(_: AllocError) -> ReadEnd {
        ReadEnd::NoMemory
    }
}

/// The most bytes of one read.
const PIECE_BYTES: usize = 4_096;

/// The bytes of the first file of a name, at most `limit` of them.
///
/// # Errors
///
/// `Fault` where a call to the source failed, `TooLong` where the file has more bytes than `limit`, which is below
/// 2^32, and `NoMemory`.
pub fn read_file<S: Source>(
    alloc: Global,
    source: &mut S,
    name: &str,
    limit: usize,
) -> Result<Vec<u8>, ReadEnd>
    requires { limit < 2 ^ 32 }
    ensures files { S.files source.new ≡ S.files source.old }
    ensures whole { IfOk result (λ bytes. HasBytesIfTold (S.files source.old) name.now bytes.items) }
    ensures fits { IfOk result (λ bytes. vec_len bytes ≤ limit) }
    ensures end { OnOk result (HasNothingLeft (S.files source.old) (S.left source.new)) }
    ensures too_long { IsErrOf result ReadEnd.TooLong → IsLonger (S.files source.old) name.now limit }
    ensures later { S.faults source.old ≤ S.faults source.new }
    ensures fault { IsErrOf result ReadEnd.Fault
        → MayNotBegin (S.files source.old) name.now (S.faults source.old) (S.faults source.new) }
{
    source.begin(name)?;
    let mut piece = [0; PIECE_BYTES];
    let mut bytes = Vec::new(alloc);
    loop {
        let count = source.read(&mut piece)?;
        if count == 0 {
            return Ok(bytes);
        }
        if count > limit - bytes.len() {
            return Err(ReadEnd::TooLong);
        }
        bytes.extend_from_slice(&piece[..count])?;
    }
}

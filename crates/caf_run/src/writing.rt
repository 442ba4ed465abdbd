//! Bytes written whole.

ghost use Rattle.std.specs.Prelude.{◌≡◌, ◌≤◌, [], OnOk, OnErr};
ghost use Rattle.std.specs.Io.KnownBytes.{Appends};
ghost use Rattle.caf_base.specs.Outside.{Rose};
ghost use Rattle.caf_run.specs.Writing.{GrewByProperPrefix};

use caf_base::outside::{Failed, Sink};

/// Writes all of the bytes, in as many calls as the sink wants. Of no bytes it makes no call.
/// After `Failed`, which comes only where the sink's count of faults rose in this call, some of the bytes are written,
/// from the first on, but not all.
pub fn write_all<K: Sink>(sink: &mut K, bytes: &[u8]) -> Result<(), Failed>
    ensures whole { OnOk result (Appends (K.written sink.old) (K.written sink.new) bytes.now) }
    ensures part { OnErr result (GrewByProperPrefix (K.written sink.old) (K.written sink.new) bytes.now) }
    ensures none { bytes.now ≡ [] → sink.new ≡ sink.old }
    ensures later { K.faults sink.old ≤ K.faults sink.new }
    ensures cause { OnErr result (Rose (K.faults sink.old) (K.faults sink.new)) }
{
    let mut rest = bytes;
    while !rest.is_empty() {
        let count = sink.write(rest)?;
        rest = &rest[count..];
    }
    Ok(())
}

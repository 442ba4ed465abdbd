//! The trace for which bytes are written.

ghost use Rattle.std.specs.Prelude.{◌≡◌, ◌<◌, length, IfOk, IfErr};
ghost use Rattle.trace_forms.specs.Files.{lines_of, Written, IsBadLine};
ghost use Rattle.trace_reader.specs.Files.{IfBad};

use crate::names::are_names;
use caf_base::listing::Text;
use caf_base::refusal::Refusal;
use caf_events::event::Trace;
use std::alloc::Global;
use trace_reader::trace::{BadTrace, read_trace};

/// The trace for which bytes are written, with the coarrays by their names in declared order; where they are written
/// for none, the first line by which they are so.
pub(crate) fn trace_of(
    alloc: Global,
    bytes: &[u8],
    names: &[Text],
) -> Result<Trace, Refusal<BadTrace>>
    requires few { length bytes.now < 4294967295 }
    ensures written { IfOk result (λ trace. Written bytes.now names.now trace.entries) }
    ensures bad { IfErr result (IfBad (IsBadLine (lines_of bytes.now) names.now)) }
{
    if !are_names(names) {
        return Err(Refusal::NoMemory);
    }
    read_trace(alloc, bytes, names)
}

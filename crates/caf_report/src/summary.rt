//! The line that sums a run up.

ghost use Rattle.std.specs.Prelude.{◌≡◌, ◌++◌, OnOk};
ghost use Rattle.caf_report.specs.ReportText.{counts_text, summary_text};

use caf_base::refusal::NoMemory;
use trace_text::piece::{push_spaced, push_text};

// Appends so many images and so many events.
fn push_counts(out: &mut Vec<u8>, images: u32, events: u64) -> Result<(), NoMemory>
    ensures { OnOk result (out.new.items ≡ out.old.items ++ counts_text images events) }
{
    push_text(out, "images")?;
    push_spaced(out, u64::from(images))?;
    push_text(out, " events")?;
    push_spaced(out, events)
}

/// Appends the line of a run with so many images, so many events and this status.
pub fn push_summary(out: &mut Vec<u8>, images: u32, events: u64, status: u8) -> Result<(), NoMemory>
    ensures { OnOk result (out.new.items ≡ out.old.items ++ summary_text images events status) }
{
    push_text(out, "summary ")?;
    push_counts(out, images, events)?;
    push_text(out, " status")?;
    push_spaced(out, u64::from(status))?;
    push_text(out, "\n")
}

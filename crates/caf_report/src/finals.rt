//! The lines of final values.

ghost use Rattle.std.specs.Prelude.{◌≡◌, ◌++◌, OnOk, flat_map};
ghost use Rattle.caf_report.specs.ReportText.{final_text, final_line};

use super::report::Final;
use caf_base::refusal::NoMemory;
use trace_text::piece::{push_spaced, push_text, push_values};

// Appends the values of a variable, or that it isn't allocated.
fn push_value_of(out: &mut Vec<u8>, last: &Final) -> Result<(), NoMemory>
    ensures { OnOk result (out.new.items ≡ out.old.items ++ final_text last.now) }
{
    if last.is_allocated {
        push_values(out, last.values.as_slice())
    } else {
        push_text(out, "unallocated")
    }
}

fn push_final(out: &mut Vec<u8>, last: &Final) -> Result<(), NoMemory>
    ensures { OnOk result (out.new.items ≡ out.old.items ++ final_line last.now) }
{
    push_text(out, "var")?;
    push_spaced(out, u64::from(last.image.0))?;
    push_text(out, " ")?;
    out.extend_from_slice(last.name.as_slice())?;
    push_text(out, " = ")?;
    push_value_of(out, last)?;
    push_text(out, "\n")
}

/// Appends a line for each final value.
pub fn push_finals(out: &mut Vec<u8>, finals: &[Final]) -> Result<(), NoMemory>
    ensures { OnOk result (out.new.items ≡ out.old.items ++ flat_map final_line finals.now) }
{
    for last in finals {
        push_final(out, last)?;
    }
    Ok(())
}

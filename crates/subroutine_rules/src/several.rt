//! What breaks in several arguments.

ghost use Rattle.std.specs.Prelude.{◌≡◌, ◌++◌, IfOk, OnOk};

use caf_base::refusal::NoMemory;
use part_rules::judged::{Judged, add_all};
use rule_definitions::broken::Broken;

/// Puts what breaks in a part behind what breaks in others, and gives what the part stands for.
pub fn noted<T: Drop>(breaks: &mut Vec<Broken>, part: Judged<T>) -> Result<Option<T>, NoMemory>
    ensures breaks { OnOk result (breaks.new.items ≡ breaks.old.items ++ part.breaks.items) }
    ensures meaning { IfOk result (λ m. m ≡ part.meaning) }
{
    let Judged {
        breaks: own,
        meaning,
    } = part;
    add_all(breaks, own)?;
    Ok(meaning)
}

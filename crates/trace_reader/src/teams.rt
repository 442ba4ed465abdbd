//! The form of a file, and the team numbers that the lines so far give.

ghost use Rattle.std.specs.Prelude.{◌≡◌, ◌++◌, OnOk, is_some};
ghost use Rattle.trace_text.specs.Forms.{number_by_table};
ghost use Rattle.trace_text.specs.TraceText.{entry_line};
ghost use Rattle.trace_reader.specs.Tables.{team_text_by, is_numbered_by, shows_team_of, TakesNumbers};

use caf_base::listing::Text;
use caf_base::place::{INITIAL_TEAM, TeamNo};
use caf_base::refusal::NoMemory;
use caf_events::ask::Ask;
use caf_events::event::Entry;
use std::alloc::Global;
use std::collections::BTreeMap;
use trace_text::line::{push_entry, push_first_entry};

/// Whether the file has the second form, and its team numbers by teams, which the first form doesn't have.
#[derive(Drop)]
pub(crate) struct Teams {
    pub(crate) is_second: bool,
    pub(crate) numbers: BTreeMap<u32, i64>,
}

// Whether a team has a team number.
fn has_number(numbers: &BTreeMap<u32, i64>, team: TeamNo) -> bool
    ensures { result ≡ is_some (number_by_table numbers.now team.0) }
{
    team.0 == INITIAL_TEAM.0 || numbers.contains_key(&team.0)
}

// Whether the team that an ask names has a team number.
fn is_numbered(numbers: &BTreeMap<u32, i64>, ask: &Ask) -> bool
    ensures { result ≡ is_numbered_by numbers.now ask.now }
{
    match ask {
        Ask::Arrive { team, .. }
        | Ask::Leave { team, .. }
        | Ask::Gather { team, .. }
        | Ask::Take { team, .. }
        | Ask::Failed { team }
        | Ask::Stopped { team }
        | Ask::Status { team, .. } => has_number(numbers, *team),
        _ => true,
    }
}

impl Teams {
    /// Whether the team that an ask names can be shown.
    pub(crate) fn can_show(&self, ask: &Ask) -> bool
        ensures { result ≡ shows_team_of self.now ask.now }
    {
        !self.is_second || is_numbered(&self.numbers, ask)
    }

    /// Appends the line of a step in the form of the file, and takes the team numbers that it gives.
    pub(crate) fn push(
        &mut self,
        alloc: Global,
        out: &mut Vec<u8>,
        names: &[Text],
        entry: &Entry,
    ) -> Result<(), NoMemory>
        ensures text { OnOk result (out.new.items ≡ out.old.items
            ++ entry_line (team_text_by self.old) names.now entry.now) }
        ensures taken { OnOk result (TakesNumbers self.old entry.now.event.reply self.new) }
    {
        if self.is_second {
            push_entry(alloc, out, names, &mut self.numbers, entry)
        } else {
            push_first_entry(alloc, out, names, entry)
        }
    }
}

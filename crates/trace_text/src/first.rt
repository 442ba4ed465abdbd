//! The text of an ask in the first form, where a team that an ask names stands by its number in the run alone.

ghost use Rattle.std.specs.Prelude.{◌≡◌, ◌++◌, OnOk, IsTrue};
ghost use Rattle.trace_text.specs.TraceText.{spaced, number_text, gather_word, kind_word, values_text, names_team, operands_text, ask_text};

use crate::ask::{gather_name, kind_name, push_ask, push_list};
use crate::piece::{push_spaced, push_text, push_word};
use crate::round::push_arriving;
use crate::words::ask_word;
use caf_base::listing::Text;
use caf_base::place::TeamNo;
use caf_base::refusal::NoMemory;
use caf_base::value::{Kind, Value};
use caf_events::ask::Ask;
use caf_events::round::GatherOp;
use std::alloc::Global;
use std::collections::BTreeMap;

// Whether the ask names a team.
fn has_team(ask: &Ask) -> bool
    ensures { result ≡ names_team ask.now }
{
    matches!(
        ask,
        Ask::Arrive { .. }
            | Ask::Leave { .. }
            | Ask::Gather { .. }
            | Ask::Take { .. }
            | Ask::Failed { .. }
            | Ask::Stopped { .. }
            | Ask::Status { .. }
    )
}

// Appends the operands of an arrival at a collective subroutine.
fn push_gather(
    out: &mut Vec<u8>,
    team: TeamNo,
    op: GatherOp,
    root: u32,
    kind: Kind,
    values: &[Value],
) -> Result<(), NoMemory>
    ensures { OnOk result (out.new.items ≡ out.old.items ++ (spaced (number_text team.0) ++ spaced (gather_word op) ++ spaced (number_text root) ++ spaced (kind_word kind) ++ spaced (values_text values.now))) }
{
    push_spaced(out, u64::from(team.0))?;
    push_word(out, gather_name(op))?;
    push_spaced(out, u64::from(root))?;
    push_word(out, kind_name(kind))?;
    push_list(out, values)
}

// Appends a team and a number.
fn push_of_team(out: &mut Vec<u8>, team: TeamNo, number: u64) -> Result<(), NoMemory>
    ensures { OnOk result (out.new.items ≡ out.old.items ++ (spaced (number_text team.0) ++ spaced (number_text number))) }
{
    push_spaced(out, u64::from(team.0))?;
    push_spaced(out, number)
}

// Appends the operands of an ask that names a team; those of another are left out.
fn push_operands(out: &mut Vec<u8>, names: &[Text], ask: &Ask) -> Result<(), NoMemory>
    requires { IsTrue (names_team ask.now) }
    ensures { OnOk result (out.new.items ≡ out.old.items ++ operands_text number_text names.now ask.now) }
{
    match ask {
        Ask::Arrive { team, arriving } => {
            push_spaced(out, u64::from(team.0))?;
            push_arriving(out, names, arriving)
        }
        Ask::Leave { team, round } | Ask::Take { team, round } => push_of_team(out, *team, *round),
        Ask::Gather {
            team,
            op,
            root,
            kind,
            values,
        } => push_gather(out, *team, *op, *root, *kind, values.as_slice()),
        Ask::Failed { team } | Ask::Stopped { team } => push_spaced(out, u64::from(team.0)),
        Ask::Status { team, index } => push_of_team(out, *team, u64::from(*index)),
        _ => Ok(()),
    }
}

/// Appends the text of an ask.
pub(crate) fn push_first_ask(
    alloc: Global,
    out: &mut Vec<u8>,
    names: &[Text],
    ask: &Ask,
) -> Result<(), NoMemory>
    ensures { OnOk result (out.new.items ≡ out.old.items ++ ask_text number_text names.now ask.now) }
{
    if has_team(ask) {
        push_text(out, ask_word(ask))?;
        push_operands(out, names, ask)
    } else {
        push_ask(out, names, &BTreeMap::new(alloc), ask)
    }
}

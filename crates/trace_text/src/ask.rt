//! The text of an ask.

ghost use Rattle.std.specs.Prelude.{◌≡◌, ◌++◌, OnOk, IsTrue, codes, flat_map};
ghost use Rattle.caf_text.specs.Numbers.{decimal_text};
ghost use Rattle.trace_text.specs.TraceText.{spaced, number_text, value_text, values_text, span_text, atomic_word, gather_word, kind_word, escaped, is_control, operands_text, ask_text};
ghost use Rattle.trace_text.specs.Forms.{team_by_table};

use crate::numbers::number_of;
use crate::piece::{
    push_coarray, push_count, push_images, push_spaced, push_span, push_text, push_value,
    push_values, push_word,
};
use crate::round::push_arriving;
use crate::words::{ask_word, fault_word};
use caf_base::listing::Text;
use caf_base::place::TeamNo;
use caf_base::refusal::NoMemory;
use caf_base::span::Span;
use caf_base::value::{AtomicOp, Kind, Value};
use caf_events::ask::Ask;
use caf_events::round::GatherOp;
use caf_text::push_number;
use std::collections::BTreeMap;

fn atomic_name(op: AtomicOp) -> &'static str
    ensures { result.now ≡ atomic_word op }
{
    match op {
        AtomicOp::Define => "define",
        AtomicOp::Ref => "ref",
        AtomicOp::Add => "add",
        AtomicOp::And => "and",
        AtomicOp::Or => "or",
        AtomicOp::Xor => "xor",
        AtomicOp::Cas => "cas",
    }
}

/// The name of a collective operation.
pub(crate) fn gather_name(op: GatherOp) -> &'static str
    ensures { result.now ≡ gather_word op }
{
    match op {
        GatherOp::Sum => "sum",
        GatherOp::Min => "min",
        GatherOp::Max => "max",
        GatherOp::Broadcast => "broadcast",
    }
}

/// The name of a kind.
pub(crate) fn kind_name(kind: Kind) -> &'static str
    ensures { result.now ≡ kind_word kind }
{
    match kind {
        Kind::I4 => "I4",
        Kind::I8 => "I8",
        Kind::L4 => "L4",
    }
}

/// Appends values behind a blank.
pub(crate) fn push_list(out: &mut Vec<u8>, values: &[Value]) -> Result<(), NoMemory>
    ensures { OnOk result (out.new.items ≡ out.old.items ++ spaced (values_text values.now)) }
{
    push_text(out, " ")?;
    push_values(out, values)
}

// Appends the operands of an atomic action.
fn push_atomic(
    out: &mut Vec<u8>,
    names: &[Text],
    op: AtomicOp,
    span: &Span,
    x: Value,
    y: Value,
) -> Result<(), NoMemory>
    ensures { OnOk result (out.new.items ≡ out.old.items ++ (spaced (atomic_word op) ++ spaced (span_text names.now span.now) ++ spaced (value_text x) ++ spaced (value_text y))) }
{
    push_word(out, atomic_name(op))?;
    push_span(out, names, span)?;
    push_text(out, " ")?;
    push_value(out, x)?;
    push_text(out, " ")?;
    push_value(out, y)
}

// Appends a blank and a team: its number in the run, and its team number behind a slash.
fn push_team(out: &mut Vec<u8>, numbers: &BTreeMap<u32, i64>, team: TeamNo) -> Result<(), NoMemory>
    ensures { OnOk result (out.new.items ≡ out.old.items ++ spaced (team_by_table numbers.now team.0)) }
{
    push_spaced(out, u64::from(team.0))?;
    push_text(out, "/")?;
    match number_of(numbers, team) {
        Some(number) => push_number(out, number),
        None => Ok(()),
    }
}

// Appends the operands of an arrival at a collective subroutine.
fn push_gather(
    out: &mut Vec<u8>,
    numbers: &BTreeMap<u32, i64>,
    team: TeamNo,
    op: GatherOp,
    root: u32,
    kind: Kind,
    values: &[Value],
) -> Result<(), NoMemory>
    ensures { OnOk result (out.new.items ≡ out.old.items ++ (spaced (team_by_table numbers.now team.0) ++ spaced (gather_word op) ++ spaced (number_text root) ++ spaced (kind_word kind) ++ spaced (values_text values.now))) }
{
    push_team(out, numbers, team)?;
    push_word(out, gather_name(op))?;
    push_spaced(out, u64::from(root))?;
    push_word(out, kind_name(kind))?;
    push_list(out, values)
}

// Appends a team and a number.
fn push_of_team(
    out: &mut Vec<u8>,
    numbers: &BTreeMap<u32, i64>,
    team: TeamNo,
    number: u64,
) -> Result<(), NoMemory>
    ensures { OnOk result (out.new.items ≡ out.old.items ++ (spaced (team_by_table numbers.now team.0) ++ spaced (number_text number))) }
{
    push_team(out, numbers, team)?;
    push_spaced(out, number)
}

// Appends a blank and a number.
fn push_code(out: &mut Vec<u8>, code: i64) -> Result<(), NoMemory>
    ensures { OnOk result (out.new.items ≡ out.old.items ++ spaced (decimal_text code)) }
{
    push_text(out, " ")?;
    push_number(out, code)
}

// Appends a word and a number.
fn push_limit(out: &mut Vec<u8>, what: &str, number: u64) -> Result<(), NoMemory>
    ensures { OnOk result (out.new.items ≡ out.old.items ++ (what.now ++ number_text number)) }
{
    push_text(out, what)?;
    push_count(out, number)
}

fn push_escaped(out: &mut Vec<u8>, byte: u8) -> Result<(), NoMemory>
    ensures { OnOk result (out.new.items ≡ out.old.items ++ escaped byte) }
{
    match byte {
        b'\n' => push_text(out, "\\n"),
        b'\\' => push_text(out, "\\\\"),
        _ => {
            out.push(byte)?;
            Ok(())
        }
    }
}

fn push_printed(out: &mut Vec<u8>, text: &[u8]) -> Result<(), NoMemory>
    ensures { OnOk result (out.new.items ≡ out.old.items ++ flat_map escaped text.now) }
{
    for byte in text {
        push_escaped(out, *byte)?;
    }
    Ok(())
}

// Appends the operands of an ask at the control board or of a step of the image alone; those of an ask at a memory are
// left out.
fn push_control(
    out: &mut Vec<u8>,
    names: &[Text],
    numbers: &BTreeMap<u32, i64>,
    ask: &Ask,
) -> Result<(), NoMemory>
    requires { IsTrue (is_control ask.now) }
    ensures { OnOk result (out.new.items ≡ out.old.items ++ operands_text (team_by_table numbers.now) names.now ask.now) }
{
    match ask {
        Ask::Arrive { team, arriving } => {
            push_team(out, numbers, *team)?;
            push_arriving(out, names, arriving)
        }
        Ask::Leave { team, round } | Ask::Take { team, round } => push_of_team(
            out, numbers, *team, *round,
        ),
        Ask::Gather {
            team,
            op,
            root,
            kind,
            values,
        } => push_gather(out, numbers, *team, *op, *root, *kind, values.as_slice()),
        Ask::Pair { images } => {
            push_text(out, " ")?;
            push_images(out, ",", images.as_slice())
        }
        Ask::Enter { construct } | Ask::Exit { construct } => push_spaced(
            out,
            u64::from(*construct),
        ),
        Ask::Stop { code } | Ask::ErrorStop { code } => push_code(out, *code),
        Ask::Failed { team } | Ask::Stopped { team } => push_team(out, numbers, *team),
        Ask::Status { team, index } => push_of_team(out, numbers, *team, u64::from(*index)),
        Ask::Print { text } => {
            push_text(out, " ")?;
            push_printed(out, text.as_slice())
        }
        Ask::Fault { kind } => push_word(out, fault_word(*kind)),
        Ask::LimitStatements { number } => push_limit(out, " statements ", *number),
        Ask::LimitWords { number } => push_limit(out, " words ", *number),
        Ask::LimitStamp { number } => push_limit(out, " stamp ", *number),
        _ => Ok(()),
    }
}

// Appends the operands of an ask.
fn push_operands(
    out: &mut Vec<u8>,
    names: &[Text],
    numbers: &BTreeMap<u32, i64>,
    ask: &Ask,
) -> Result<(), NoMemory>
    ensures { OnOk result (out.new.items ≡ out.old.items ++ operands_text (team_by_table numbers.now) names.now ask.now) }
{
    match ask {
        Ask::Read { span, .. }
        | Ask::Lock { span, .. }
        | Ask::TryLock { span, .. }
        | Ask::Unlock { span, .. }
        | Ask::Post { span, .. }
        | Ask::Query { span, .. }
        | Ask::Free { span, .. } => push_span(out, names, span),
        Ask::Write { span, values, .. } => {
            push_span(out, names, span)?;
            push_list(out, values.as_slice())
        }
        Ask::Wait {
            span,
            threshold,
            ..
        } => {
            push_span(out, names, span)?;
            push_spaced(out, *threshold)
        }
        Ask::Create { coarray, cells, .. } => {
            push_coarray(out, names, *coarray)?;
            push_spaced(out, u64::from(*cells))
        }
        Ask::Delete { coarray, .. } => push_coarray(out, names, *coarray),
        Ask::Atomic { op, span, x, y, .. } => push_atomic(out, names, *op, span, *x, *y),
        _ => push_control(out, names, numbers, ask),
    }
}

/// Appends the text of an ask, with the team numbers that a table has.
pub(crate) fn push_ask(
    out: &mut Vec<u8>,
    names: &[Text],
    numbers: &BTreeMap<u32, i64>,
    ask: &Ask,
) -> Result<(), NoMemory>
    ensures { OnOk result (out.new.items ≡ out.old.items ++ ask_text (team_by_table numbers.now) names.now ask.now) }
{
    push_text(out, ask_word(ask))?;
    push_operands(out, names, numbers, ask)
}

//! Whether a step can be shown by a line: what its printed text doesn't tell.
//! That a number is in the range of its type is tested too. Each is; but a list is seen as its items alone, and what
//! their type says of them comes from looking at each.

ghost use Rattle.std.specs.Prelude.{◌≡◌, ◌&&◌, IsTrue};
ghost use Rattle.std.specs.List.{list_all};
ghost use Rattle.trace_text.specs.TraceText.{is_control};
ghost use Rattle.trace_reader.specs.Checks as checks;

use crate::forms::has_form;
use caf_base::listing::Text;
use caf_base::place::ImageNo;
use caf_base::span::Span;
use caf_base::value::Value;
use caf_events::ask::Ask;
use caf_events::event::Entry;
use caf_events::reply::{FormedTeam, Reply};
use caf_events::round::{Allotted, Arriving};
use coarray_memory::section::is_section;
use std::alloc::Global;

// A number of 32 bits.
fn is_half(number: u32) -> bool
    ensures { result ≡ checks.is_half number }
{
    number <= u32::MAX
}

// A number of 64 bits.
fn is_long(number: u64) -> bool
    ensures { result ≡ checks.is_long number }
{
    number <= u64::MAX
}

// A number of 64 bits with a sign.
fn is_signed(number: i64) -> bool
    ensures { result ≡ checks.is_signed number }
{
    number <= i64::MAX
}

// A number of 32 bits with a sign.
fn is_signed_half(number: i32) -> bool
    ensures { result ≡ checks.is_signed_half number }
{
    number <= i32::MAX
}

fn is_image(image: ImageNo) -> bool
    ensures { result ≡ checks.is_image image }
{
    is_half(image.0)
}

fn is_value(value: Value) -> bool
    ensures { result ≡ checks.is_value value }
{
    match value {
        Value::Int(number) => is_signed(number),
        Value::Bool(_) => true,
    }
}

fn is_pair(bounds: (i64, i64)) -> bool
    ensures { result ≡ checks.are_bounds bounds }
{
    is_signed(bounds.0) && is_signed(bounds.1)
}

fn is_dimension(dim: (u32, i32)) -> bool
    ensures { result ≡ checks.is_dimension dim }
{
    is_half(dim.0) && is_signed_half(dim.1)
}

fn are_values(values: &[Value]) -> bool
    ensures { result ≡ list_all checks.is_value values.now }
{
    values.iter().all(|value| is_value(*value))
}

fn are_images(images: &[ImageNo]) -> bool
    ensures { result ≡ list_all checks.is_image images.now }
{
    images.iter().all(|image| is_image(*image))
}

fn are_halves(numbers: &[u32]) -> bool
    ensures { result ≡ list_all checks.is_half numbers.now }
{
    numbers.iter().all(|number| is_half(*number))
}

fn are_bounds(bounds: &[(i64, i64)]) -> bool
    ensures { result ≡ list_all checks.are_bounds bounds.now }
{
    bounds.iter().all(|pair| is_pair(*pair))
}

fn are_dimensions(dims: &[(u32, i32)]) -> bool
    ensures { result ≡ list_all checks.is_dimension dims.now }
{
    dims.iter().all(|dim| is_dimension(*dim))
}

// Whether the coarray of a number has a name.
fn has_name(names: &[Text], coarray: u32) -> bool
    ensures { result ≡ checks.has_name names.now coarray }
{
    is_half(coarray) && (coarray as usize) < names.len()
}

fn have_names(names: &[Text], coarrays: &[u32]) -> bool
    ensures { result ≡ list_all (checks.has_name names.now) coarrays.now }
{
    coarrays.iter().all(|coarray| has_name(names, *coarray))
}

// Whether the cells of an access can be shown.
fn shows_span(names: &[Text], span: &Span) -> bool
    ensures { result ≡ checks.shows_span names.now span.now }
{
    span.dims.len() <= 3
        && is_half(span.start)
        && has_name(names, span.coarray)
        && are_dimensions(span.dims.as_slice())
        && is_section(span)
}

fn shows_allotted(names: &[Text], allotted: &Allotted) -> bool
    ensures { result ≡ checks.shows_allotted names.now allotted.now }
{
    allotted.dims.len() <= 3
        && allotted.codims.len() <= 2
        && has_name(names, allotted.coarray)
        && are_bounds(allotted.dims.as_slice())
        && are_bounds(allotted.codims.as_slice())
        && is_signed(allotted.last)
}

fn show_allotments(names: &[Text], list: &[Allotted]) -> bool
    ensures { result ≡ list_all (checks.shows_allotted names.now) list.now }
{
    list.iter().all(|allotted| shows_allotted(names, allotted))
}

fn shows_arriving(names: &[Text], arriving: &Arriving) -> bool
    ensures { result ≡ checks.shows_arriving names.now arriving.now }
{
    match arriving {
        Arriving::Form { number, new_index } => is_signed(*number) && is_signed(*new_index),
        Arriving::Allocate { list } => show_allotments(names, list.as_slice()),
        Arriving::Deallocate { list } => have_names(names, list.as_slice()),
        Arriving::Sync | Arriving::Change | Arriving::End => true,
    }
}

// What is asked of cells: the owner, the cells, and the values that come with them.
fn shows_access(names: &[Text], owner: ImageNo, span: &Span) -> bool
    ensures { result ≡ (checks.is_half owner.0 && checks.shows_span names.now span.now) }
{
    is_half(owner.0) && shows_span(names, span)
}

fn shows_gather(team: u32, root: u32, values: &[Value]) -> bool
    ensures { result ≡ (checks.is_half team && checks.is_half root && list_all checks.is_value values.now) }
{
    is_half(team) && is_half(root) && are_values(values)
}

// Whether an ask at the control board or of the image alone can be shown.
fn shows_control(names: &[Text], ask: &Ask) -> bool
    requires { IsTrue (is_control ask.now) }
    ensures { result ≡ checks.shows_ask names.now ask.now }
{
    match ask {
        Ask::Mark { owner } => is_half(owner.0),
        Ask::Arrive { team, arriving } => is_half(team.0) && shows_arriving(names, arriving),
        Ask::Leave { team, round } | Ask::Take { team, round } => {
            is_half(team.0) && is_long(*round)
        }
        Ask::Gather {
            team,
            root,
            values,
            ..
        } => shows_gather(team.0, *root, values.as_slice()),
        Ask::Pair { images } => are_images(images.as_slice()),
        Ask::Enter { construct } | Ask::Exit { construct } => is_half(*construct),
        Ask::Stop { code } | Ask::ErrorStop { code } => is_signed(*code),
        Ask::Failed { team } | Ask::Stopped { team } => is_half(team.0),
        Ask::Status { team, index } => is_half(team.0) && is_half(*index),
        Ask::LimitStatements { number } | Ask::LimitWords { number } | Ask::LimitStamp { number } =>
            is_long(*number),
        _ => true,
    }
}

// Whether an ask can be shown.
fn shows_ask(names: &[Text], ask: &Ask) -> bool
    ensures { result ≡ checks.shows_ask names.now ask.now }
{
    match ask {
        Ask::Read { owner, span }
        | Ask::Lock { owner, span }
        | Ask::TryLock { owner, span }
        | Ask::Unlock { owner, span }
        | Ask::Post { owner, span }
        | Ask::Query { owner, span }
        | Ask::Free { owner, span } => shows_access(names, *owner, span),
        Ask::Write {
            owner,
            span,
            values,
        } => shows_access(names, *owner, span) && are_values(values.as_slice()),
        Ask::Create {
            owner,
            coarray,
            cells,
        } => is_half(owner.0) && has_name(names, *coarray) && is_half(*cells),
        Ask::Delete { owner, coarray } => is_half(owner.0) && has_name(names, *coarray),
        Ask::Atomic {
            owner,
            span,
            x,
            y,
            ..
        } => shows_access(names, *owner, span) && is_value(*x) && is_value(*y),
        Ask::Wait {
            owner,
            span,
            threshold,
        } => shows_access(names, *owner, span) && is_long(*threshold),
        _ => shows_control(names, ask),
    }
}

fn shows_team(team: &FormedTeam) -> bool
    ensures { result ≡ checks.shows_team team.now }
{
    is_half(team.team.0) && is_signed(team.number) && are_images(team.members.as_slice())
}

fn show_teams(teams: &[FormedTeam]) -> bool
    ensures { result ≡ list_all checks.shows_team teams.now }
{
    teams.iter().all(|team| shows_team(team))
}

// Whether a reply can be shown.
fn shows_reply(reply: &Reply) -> bool
    ensures { result ≡ checks.shows_reply reply.now }
{
    match reply {
        Reply::Values { values } => are_values(values.as_slice()),
        Reply::Old { value } => is_value(*value),
        Reply::Number { status } => is_signed_half(*status),
        Reply::Count { count } => is_long(*count),
        Reply::Round { round } => is_long(*round),
        Reply::Clash { image, line } => is_half(image.0) && is_half(*line),
        Reply::Indices { indices } => are_halves(indices.as_slice()),
        Reply::Taken { status, values } => {
            is_signed_half(*status) && are_values(values.as_slice())
        }
        Reply::Left { status, teams } => is_signed_half(*status) && show_teams(teams.as_slice()),
        Reply::Done | Reply::Dead | Reply::Absent | Reply::Overflow | Reply::Busy => true,
    }
}

// Whether an ask with a reply can be shown.
fn shows_exchange(names: &[Text], ask: &Ask, reply: &Reply) -> bool
    ensures { result ≡ checks.shows_exchange names.now ask.now reply.now }
{
    shows_ask(names, ask) && shows_reply(reply) && has_form(ask, reply)
}

/// Whether a step can be shown by a line.
pub(crate) fn shows_entry(alloc: Global, names: &[Text], entry: &Entry) -> bool
    ensures { result ≡ checks.shows_entry names.now entry.now }
{
    is_long(entry.event.stamp())
        && is_half(entry.image.0)
        && is_half(entry.event.line())
        && shows_exchange(
            names,
            &entry.event.told().ask(alloc),
            &entry.event.reply(alloc),
        )
}

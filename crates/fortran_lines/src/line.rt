//! What one physical line is to a statement (ISO/IEC 1539-1:2018, 6.3.2).

ghost use Rattle.std.specs.Prelude.{◌≡◌};
ghost use Rattle.std.specs.Option.{option_map};
ghost use Rattle.fortran_lines.specs.Lines as spec;
ghost use Rattle.fortran_lines.specs.Parts.{part_seen};

use crate::context::{Before, Context, behind, context_behind, is_inside};
use crate::placed_byte::{PlacedByte, all_blank, blank_at, is_blank};

/// What a line is to a statement.
#[derive(Clone, Copy)]
pub struct Part<'a> {
    /// The line without its comment, and without the `&` with which it begins where it continues one.
    pub code: &'a [PlacedByte],
    /// The blank that a continuation puts in.
    pub blank: Option<PlacedByte>,
    /// What it adds to the statement behind that.
    pub text: &'a [PlacedByte],
    /// What stands before the next line.
    pub next: Before,
    /// The quote of a literal that is left open.
    pub left_open: Option<PlacedByte>,
}

/// Whether it is a blank line or a comment line.
pub fn is_nothing(line: &[PlacedByte]) -> bool
    ensures { result ≡ spec.is_nothing line.now }
{
    for mark in line {
        if !is_blank(*mark) {
            return mark.code == b'!';
        }
    }
    true
}

/// A line without its comment, where its text begins in this context.
pub fn code_part(context: Context, line: &[PlacedByte]) -> &[PlacedByte]
    ensures { result.now ≡ spec.code_part context line.now }
{
    let mut now = context;
    for (i, mark) in line.iter().enumerate() {
        if mark.code == b'!' && !is_inside(now) {
            return &line[..i];
        }
        now = behind(now, *mark);
    }
    line
}

/// The text in front of an `&` that is the last byte but blanks, and that `&`.
pub fn before_amp(code: &[PlacedByte]) -> Option<(&[PlacedByte], PlacedByte)>
    ensures { option_map (λ r. (r.0.now, r.1)) result ≡ spec.before_amp code.now }
{
    let mut rest = code;
    while let Some((last, front)) = rest.split_last() {
        if last.code == b'&' {
            return Some((front, *last));
        }
        if !is_blank(*last) {
            return None;
        }
        rest = front;
    }
    None
}

/// The rest behind an `&` that is the first byte but blanks, and that `&`.
pub fn behind_amp(line: &[PlacedByte]) -> Option<(&[PlacedByte], PlacedByte)>
    ensures { option_map (λ r. (r.0.now, r.1)) result ≡ spec.behind_amp line.now }
{
    for (i, mark) in line.iter().enumerate() {
        if mark.code == b'&' {
            return Some((&line[i + 1..], *mark));
        }
        if !is_blank(*mark) {
            return None;
        }
    }
    None
}

/// A line whose text begins in this context.
fn part_from(context: Context, line: &[PlacedByte]) -> Part<'_>
    ensures part { part_seen result ≡ spec.part_from context line.now }
    ensures at_once { result.blank ≡ None }
{
    let code = code_part(context, line);
    match before_amp(code) {
        Some((text, amp)) => Part {
            code,
            blank: None,
            text,
            next: Before::Continued(amp, context_behind(context, text)),
            left_open: None,
        },
        None => Part {
            code,
            blank: None,
            text: code,
            next: Before::Start,
            left_open: open_quote(context_behind(context, code)),
        },
    }
}

/// The quote of the literal that is open.
fn open_quote(context: Context) -> Option<PlacedByte>
    ensures { result ≡ spec.open_quote context }
{
    match context {
        Context::Inside(quote) => Some(quote),
        Context::Outside | Context::Closed(_) => None,
    }
}

/// A line behind a continuation, where it has a leading `&` and this rest.
fn resumed(context: Context, amp: PlacedByte, rest: &[PlacedByte]) -> Part<'_>
    ensures { part_seen result ≡ spec.resumed context amp (spec.part_from context rest.now) }
{
    let part = part_from(context, rest);
    if all_blank(part.code) {
        Part {
            code: part.code,
            blank: None,
            text: &part.code[..0],
            next: Before::Continued(amp, context),
            left_open: None,
        }
    } else {
        part
    }
}

/// A line behind a continuation.
fn continued<'a>(amp: PlacedByte, context: Context, line: &'a [PlacedByte]) -> Part<'a>
    ensures { part_seen result ≡ spec.part_of (Before.Continued amp context) line.now }
{
    if let Some((rest, lead)) = behind_amp(line) {
        return resumed(context, lead, rest);
    }
    match context {
        Context::Outside | Context::Closed(_) => Part {
            blank: Some(blank_at(amp)),
            ..part_from(Context::Outside, line)
        },
        Context::Inside(quote) => Part {
            code: code_part(context, line),
            blank: None,
            text: &line[..0],
            next: Before::Start,
            left_open: Some(quote),
        },
    }
}

/// What a line is to a statement, behind what stands before it.
pub fn part_of(before: Before, line: &[PlacedByte]) -> Part<'_>
    ensures { part_seen result ≡ spec.part_of before line.now }
{
    match before {
        Before::Start => part_from(Context::Outside, line),
        Before::Continued(amp, context) => continued(amp, context, line),
    }
}

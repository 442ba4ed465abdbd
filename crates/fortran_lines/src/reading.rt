//! A file as far as it is read: its statements, the text of the one that is not ended, and what is broken first.

ghost use Rattle.std.specs.Prelude.{◌≡◌, List, [], ◌∷◌, ◌++◌, map, slice_get, OnOk, IfOk};
ghost use Rattle.std.specs.Option.{option_to_list};
ghost use Rattle.fortran_lines.specs.declared.placed_byte.PlacedByte.{PlacedByte};
ghost use Rattle.fortran_lines.specs.Lines.{pieces, kept};
ghost use Rattle.fortran_lines.specs.Lines as spec;
ghost use Rattle.fortran_lines.specs.Faults as faults;
ghost use Rattle.fortran_lines.specs.Readings.{all_statements, first_fault};
ghost use Rattle.fortran_lines.specs.Statements.{placed_bytes};

use crate::context::{Before, Context, behind, is_inside};
use crate::fault::{LineFault, first_with};
use crate::line::{is_nothing, part_of};
use crate::placed_byte::{PlacedByte, all_blank};
use crate::stmt::Stmt;
use caf_base::limits::LINE_BYTES;
use caf_base::listing::Listing;
use caf_base::place::Pos;
use caf_base::refusal::NoMemory;
use std::alloc::{AllocError, Global};

/// A file as far as it is read.
#[derive(Drop)]
pub struct Reading {
    /// What stands before the next line.
    pub before: Before,
    /// The text of the lines that are joined so far, where a continuation stands before the next line.
    pub text: Vec<PlacedByte>,
    /// The statements that are ended.
    pub stmts: Vec<Stmt>,
    /// What is broken first in the lines so far.
    pub first: Option<LineFault>,
}

/// The first of the faults so far and of a line's length.
fn first_in_line(so_far: Option<LineFault>, line: &[PlacedByte]) -> Option<LineFault>
    ensures { result ≡ faults.first_of_all so_far (faults.too_long (slice_get line.now 1000)) }
{
    match line.get(LINE_BYTES) {
        None => so_far,
        Some(mark) => first_with(so_far, LineFault::LineTooLong { at: mark.at }),
    }
}

/// The first of the faults so far and of the bytes of a code part.
fn first_in_code(so_far: Option<LineFault>, code: &[PlacedByte]) -> Option<LineFault>
    ensures { result ≡ faults.first_of_all so_far (faults.not_ascii code.now) }
{
    let mut first = so_far;
    for mark in code {
        if mark.code > 127 {
            first = first_with(first, LineFault::NotAscii { at: mark.at });
        }
    }
    first
}

/// The first of the faults so far and of a literal that is left open.
fn first_with_open(so_far: Option<LineFault>, left_open: Option<PlacedByte>) -> Option<LineFault>
    ensures { result ≡ faults.first_of_all so_far (faults.open_literal left_open) }
{
    match left_open {
        None => so_far,
        Some(quote) => first_with(so_far, LineFault::OpenLiteral { at: quote.at }),
    }
}

/// The first of the faults so far and of a continuation with no line left.
pub fn first_at_end(so_far: Option<LineFault>, before: Before) -> Option<LineFault>
    ensures { result ≡ faults.first_of_all so_far (faults.dangling before) }
{
    match before {
        Before::Start => so_far,
        Before::Continued(amp, _) => {
            first_with(so_far, LineFault::DanglingContinuation { at: amp.at })
        }
    }
}

/// Adds to a text the blank of a continuation, where there is one, and what a line adds.
fn push_text(
    text: &mut Vec<PlacedByte>,
    blank: Option<PlacedByte>,
    more: &[PlacedByte],
) -> Result<(), NoMemory>
    ensures { OnOk result (text.new.items ≡ text.old.items ++ (option_to_list blank ++ more.now)) }
{
    if let Some(mark) = blank {
        text.push(mark)?;
    }
    text.extend_from_slice(more)?;
    Ok(())
}

/// The bytes, without their places.
fn codes_of(alloc: Global, piece: &[PlacedByte]) -> Result<Vec<u8>, AllocError>
    ensures { IfOk result (λ codes. codes.items ≡ map (λ mark. mark.code) piece.now) }
{
    piece.iter().map(|mark| mark.code).collect(alloc)
}

/// The places of the bytes.
fn places_of(alloc: Global, piece: &[PlacedByte]) -> Result<Vec<Pos>, AllocError>
    ensures { IfOk result (λ places. places.items ≡ map (λ mark. mark.at) piece.now) }
{
    piece.iter().map(|mark| mark.at).collect(alloc)
}

/// The statement of these bytes.
fn stmt_of(alloc: Global, piece: &[PlacedByte]) -> Result<Stmt, NoMemory>
    ensures { IfOk result (λ stmt. placed_bytes stmt ≡ piece.now) }
{
    let codes = codes_of(alloc, piece)?;
    let places = places_of(alloc, piece)?;
    Ok(Stmt {
        text: Listing::from_vec(codes),
        at: Listing::from_vec(places),
    })
}

/// Adds the statement of these bytes, where they are not blanks alone.
fn push_piece(alloc: Global, stmts: &mut Vec<Stmt>, piece: &[PlacedByte]) -> Result<(), NoMemory>
    ensures { OnOk result (map placed_bytes stmts.new.items
        ≡ map placed_bytes stmts.old.items ++ kept (piece.now ∷ [])) }
{
    if !all_blank(piece) {
        stmts.push(stmt_of(alloc, piece)?)?;
    }
    Ok(())
}

/// Whether it is a `;` outside literals.
fn separates(context: Context, mark: PlacedByte) -> bool
    ensures { result ≡ spec.separates context mark }
{
    mark.code == b';' && !is_inside(context)
}

/// Adds the statements of a text, which are cut at each `;` outside literals.
fn push_pieces(alloc: Global, stmts: &mut Vec<Stmt>, text: &[PlacedByte]) -> Result<(), NoMemory>
    ensures { OnOk result (map placed_bytes stmts.new.items
        ≡ map placed_bytes stmts.old.items ++ pieces text.now) }
{
    let mut context = Context::Outside;
    let mut from = 0;
    for (i, mark) in text.iter().enumerate() {
        if separates(context, *mark) {
            push_piece(alloc, stmts, &text[from..i])?;
            from = i + 1;
        }
        context = behind(context, *mark);
    }
    push_piece(alloc, stmts, &text[from..])
}

impl Reading {
    /// A file of which nothing is read.
    pub fn new(alloc: Global) -> Reading
        ensures before { result.before ≡ Before.Start }
        ensures text { result.text.items ≡ [] }
        ensures stmts { result.stmts.items ≡ [] }
        ensures first { result.first ≡ None }
    {
        Reading {
            before: Before::Start,
            text: Vec::new(alloc),
            stmts: Vec::new(alloc),
            first: None,
        }
    }

    /// Takes the next line.
    pub fn take_line(&mut self, alloc: Global, line: &[PlacedByte]) -> Result<(), NoMemory>
        ensures statements { OnOk result ((lines : List (List PlacedByte)) → all_statements self.new lines ≡ all_statements self.old (line.now ∷ lines)) }
        ensures first { OnOk result ((lines : List (List PlacedByte)) → first_fault self.new lines ≡ first_fault self.old (line.now ∷ lines)) }
    {
        self.first = first_in_line(self.first, line);
        if is_nothing(line) {
            return Ok(());
        }
        let part = part_of(self.before, line);
        self.first = first_with_open(first_in_code(self.first, part.code), part.left_open);
        push_text(&mut self.text, part.blank, part.text)?;
        self.before = part.next;
        if matches!(part.next, Before::Start) {
            push_pieces(alloc, &mut self.stmts, self.text.as_slice())?;
            self.text.clear();
        }
        Ok(())
    }
}

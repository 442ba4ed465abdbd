//! The bytes of a file, joined into statements.

ghost use Rattle.std.specs.Prelude.{◌≡◌, ◌<◌, ◌+◌, ◌≤◌, ◌∷◌, [], length, map, IfOk, OnOk, IfErr, ◌==◌};
ghost use Rattle.std.specs.List.{position_or_len};
ghost use Rattle.std.specs.Str.Lines.{lines, strip_carriage_return};
ghost use Rattle.fortran_lines.specs.PlacedBytes.{placed_from};
ghost use Rattle.fortran_lines.specs.Lines.{statements_of};
ghost use Rattle.fortran_lines.specs.Faults.{faults_of, IsFirst};
ghost use Rattle.fortran_lines.specs.Causes.{IfCause};
ghost use Rattle.fortran_lines.specs.Statements.{placed_bytes};

use crate::fault::LineFault;
use crate::placed_byte::PlacedByte;
use crate::reading::{Reading, first_at_end};
use crate::stmt::Stmt;
use caf_base::place::Pos;
use caf_base::refusal::{NoMemory, Refusal};
use std::alloc::Global;

/// A line without the carriage return that ends it.
fn without_return(line: &[u8]) -> &[u8]
    ensures { result.now ≡ strip_carriage_return line.now }
{
    match line.split_last() {
        Some((b'\r', front)) => front,
        _ => line,
    }
}

/// The place of the first line feed, or the end.
fn line_end(bytes: &[u8]) -> usize
    ensures { result ≡ position_or_len (λ byte. byte == 10) bytes.now }
{
    for (i, byte) in bytes.iter().enumerate() {
        if *byte == b'\n' {
            return i;
        }
    }
    bytes.len()
}

/// The first line of some bytes, without its line feed and a carriage return before that, and the bytes behind it.
fn first_line(bytes: &[u8]) -> (&[u8], &[u8])
    requires { 0 < length bytes.now }
    ensures first { lines bytes.now ≡ result.0.now ∷ lines result.1.now }
    ensures shorter { length result.1.now < length bytes.now }
    ensures within { length result.0.now ≤ length bytes.now }
{
    let end = line_end(bytes);
    if end < bytes.len() {
        (without_return(&bytes[..end]), &bytes[end + 1..])
    } else {
        (bytes, &[])
    }
}

/// The bytes of a line with their places.
fn marks_of(alloc: Global, line: u32, bytes: &[u8]) -> Result<Vec<PlacedByte>, NoMemory>
    requires { length bytes.now < 4294967295 }
    ensures { IfOk result (λ marks. marks.items ≡ placed_from line 1 bytes.now) }
{
    let mut marks = Vec::with_capacity(alloc, bytes.len())?;
    for (i, code) in bytes.iter().enumerate() {
        let at = Pos {
            line,
            col: i as u32 + 1,
        };
        marks.push(PlacedByte { code: *code, at })?;
    }
    Ok(marks)
}

/// The statements of a file in free source form, in order. A refusal is what is broken first in the file, judged to its
/// end; want of memory may come at any time.
pub fn join_lines(alloc: Global, bytes: &[u8]) -> Result<Vec<Stmt>, Refusal<LineFault>>
    requires { length bytes.now < 4294967295 }
    ensures statements { IfOk result (λ stmts. map placed_bytes stmts.items ≡ statements_of bytes.now) }
    ensures unbroken { OnOk result (faults_of bytes.now ≡ []) }
    ensures refused { IfErr result (λ refusal. IfCause refusal (λ fault. IsFirst (faults_of bytes.now) fault)) }
{
    let mut reading = Reading::new(alloc);
    let mut rest = bytes;
    let mut number = 1;
    while !rest.is_empty() {
        let (line, others) = first_line(rest);
        let marks = marks_of(alloc, number, line)?;
        reading.take_line(alloc, marks.as_slice())?;
        rest = others;
        number += 1;
    }
    match first_at_end(reading.first, reading.before) {
        None => Ok(reading.stmts),
        Some(fault) => Err(Refusal::Cause(fault)),
    }
}

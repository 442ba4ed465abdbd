//! The lines of a file.

ghost use Rattle.std.specs.Prelude.{◌≡◌, ◌<◌, ◌≤◌, ◌∷◌, ◌⊎◌, ◌++◌, ℕ, IfOk, length, take, drop, codes};
ghost use Rattle.trace_forms.specs.Names.{is_digit_byte};
ghost use Rattle.trace_forms.specs.Ranges.{IsHalf};
ghost use Rattle.trace_forms.specs.Files.{lines_of, is_blank, goes_on_as_stamp, is_trace_line};
ghost use Rattle.trace_forms.specs.Files as files;

use caf_base::refusal::NoMemory;
use caf_text::push_number;
use std::alloc::Global;
use trace_fields::fields::cut_at;
use trace_fields::numbers::half_of;

// How many bytes the first line has, with its line feed.
fn line_end(bytes: &[u8]) -> usize
    requires { 0 < length bytes.now }
    ensures first { lines_of bytes.now ≡ take result bytes.now ∷ lines_of (drop result bytes.now) }
    ensures within { result ≤ length bytes.now }
    ensures some { 0 < result }
{
    for k in 0..bytes.len() {
        if bytes[k] == b'\n' {
            return k + 1;
        }
    }
    bytes.len()
}

/// The first line of some bytes, with its line feed, and the bytes behind it.
pub(crate) fn first_line(bytes: &[u8]) -> (&[u8], &[u8])
    requires { 0 < length bytes.now }
    ensures first { lines_of bytes.now ≡ result.0.now ∷ lines_of result.1.now }
    ensures shorter { length result.1.now < length bytes.now }
{
    let end = line_end(bytes);
    (&bytes[..end], &bytes[end..])
}

fn is_space(byte: u8) -> bool
    ensures { result ≡ is_blank byte }
{
    byte == b' ' || byte == b'\t'
}

fn is_digit(byte: u8) -> bool
    ensures { result ≡ is_digit_byte byte }
{
    b'0' <= byte && byte <= b'9'
}

// Whether a blank stands behind the digits, none or more, with which a text begins.
fn goes_on(text: &[u8]) -> bool
    ensures { result ≡ goes_on_as_stamp text.now }
{
    for byte in text {
        if is_space(*byte) {
            return true;
        }
        if !is_digit(*byte) {
            return false;
        }
    }
    false
}

/// Whether a line is one of the trace: it begins with digits and a blank.
pub(crate) fn is_of_trace(line: &[u8]) -> bool
    ensures { result ≡ is_trace_line line.now }
{
    match line.split_first() {
        Some((first, further)) => is_digit(*first) && goes_on(further),
        None => false,
    }
}

// The number of images in a line that says the second form, with or without its line feed. Of another line the answer
// may be any.
fn images_in(line: &[u8]) -> u32
    ensures { (n : ℕ) → IsHalf n
        → (line.now ≡ files.images_line n ++ codes "\n") ⊎ (line.now ≡ files.images_line n) → result ≡ n }
{
    let (text, _) = cut_at(line, b'\n');
    if text.len() < 15 {
        return 0;
    }
    half_of(&text[15..])
}

// Whether a line says the second form with so many images, with or without its line feed.
fn says_images(alloc: Global, line: &[u8], images: u32) -> Result<bool, NoMemory>
    ensures { IfOk result (λ yes. yes ≡ files.says_images line.now images) }
{
    let mut said = Vec::from_slice(alloc, b"trace 2 images ")?;
    push_number(&mut said, i64::from(images))?;
    if line == said.as_slice() {
        return Ok(true);
    }
    said.push(b'\n')?;
    Ok(line == said.as_slice())
}

/// Whether a line says the second form.
pub(crate) fn says_second(alloc: Global, line: &[u8]) -> Result<bool, NoMemory>
    ensures { IfOk result (λ yes. yes ≡ files.says_second line.now) }
{
    let images = images_in(line);
    if images < 1 {
        return Ok(false);
    }
    if images > 256 {
        return Ok(false);
    }
    says_images(alloc, line, images)
}

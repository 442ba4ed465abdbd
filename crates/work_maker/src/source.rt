//! The source of a made program, line by line.

ghost use Rattle.std.specs.Prelude.{◌≡◌, ◌++◌, ◌≤◌, IfOk, OnOk, codes, pos};
ghost use Rattle.caf_text.specs.Numbers.{decimal_text};
ghost use Rattle.work_maker.specs.MadeSource.{line, lines_text, opening, setting, settings, turns, closing, made_source};

use crate::generator::Generator;
use caf_base::refusal::NoMemory;
use caf_text::push_number;
use std::alloc::Global;

// Appends a text.
fn push_text(out: &mut Vec<u8>, text: &str) -> Result<(), NoMemory>
    ensures { OnOk result (out.new.items ≡ out.old.items ++ text.now) }
{
    out.extend_from_slice(text.as_bytes())?;
    Ok(())
}

// Appends a line.
fn push_line(out: &mut Vec<u8>, text: &str) -> Result<(), NoMemory>
    ensures { OnOk result (out.new.items ≡ out.old.items ++ line text.now) }
{
    push_text(out, text)?;
    push_text(out, "\n")
}

// Appends a line in which a number stands between two texts.
fn push_numbered(out: &mut Vec<u8>, before: &str, number: u32, behind: &str) -> Result<(), NoMemory>
    ensures { OnOk result (out.new.items ≡ out.old.items ++ line (before.now ++ decimal_text (pos number) ++ behind.now)) }
{
    push_text(out, before)?;
    push_number(out, i64::from(number))?;
    push_line(out, behind)
}

// Appends a line in which a number stands behind a text.
fn push_ended(out: &mut Vec<u8>, before: &str, number: u32) -> Result<(), NoMemory>
    ensures { OnOk result (out.new.items ≡ out.old.items ++ line (before.now ++ decimal_text (pos number))) }
{
    push_text(out, before)?;
    push_number(out, i64::from(number))?;
    push_text(out, "\n")
}

// Appends the declarations and the choice of the left neighbour.
fn push_opening(out: &mut Vec<u8>, size: u32) -> Result<(), NoMemory>
    ensures { OnOk result (out.new.items ≡ out.old.items ++ lines_text (opening size)) }
{
    push_line(out, "program made")?;
    push_numbered(
        out,
        "integer :: u(",
        size,
        "), edge[*], me, left, k, i, s, t",
    )?;
    push_line(out, "me = this_image()")?;
    push_line(out, "left = me - 1")?;
    push_line(out, "if (left == 0) left = num_images()")
}

// Appends the line that gives an element its first value.
fn push_setting(out: &mut Vec<u8>, element: u32, value: u32) -> Result<(), NoMemory>
    ensures { OnOk result (out.new.items ≡ out.old.items ++ line (codes "u(" ++ decimal_text (pos element) ++ codes ") = " ++ decimal_text (pos value))) }
{
    push_text(out, "u(")?;
    push_number(out, i64::from(element))?;
    push_ended(out, ") = ", value)
}

// Appends the lines that give the elements their first values.
fn push_settings(out: &mut Vec<u8>, seed: u32, size: u32) -> Result<(), NoMemory>
    ensures { OnOk result (out.new.items ≡ out.old.items ++ lines_text (settings seed size)) }
{
    let mut generator = Generator { state: seed };
    for done in 0..size {
        let number = generator.next_number();
        push_setting(out, done + 1, number % 1_000)?;
    }
    Ok(())
}

// Appends the ten turns in which the elements move up.
fn push_turns(out: &mut Vec<u8>, size: u32) -> Result<(), NoMemory>
    ensures { OnOk result (out.new.items ≡ out.old.items ++ lines_text (turns size)) }
{
    push_line(out, "do k = 1, 10")?;
    push_numbered(out, "edge = u(", size, ")")?;
    push_line(out, "sync all")?;
    push_line(out, "t = edge[left]")?;
    push_line(out, "sync all")?;
    push_numbered(out, "do i = ", size, ", 2, -1")?;
    push_line(out, "u(i) = u(i - 1)")?;
    push_line(out, "end do")?;
    push_line(out, "u(1) = t")?;
    push_line(out, "end do")
}

// Appends the sum and its print.
fn push_closing(out: &mut Vec<u8>, size: u32) -> Result<(), NoMemory>
    ensures { OnOk result (out.new.items ≡ out.old.items ++ lines_text (closing size)) }
{
    push_line(out, "s = 0")?;
    push_ended(out, "do i = 1, ", size)?;
    push_line(out, "s = s + u(i)")?;
    push_line(out, "end do")?;
    push_line(out, "call co_sum(s)")?;
    push_line(out, "if (me == 1) print *, s")?;
    push_line(out, "end program made")
}

// Appends the whole source.
fn push_source(out: &mut Vec<u8>, seed: u32, size: u32) -> Result<(), NoMemory>
    ensures { OnOk result (out.new.items ≡ out.old.items ++ made_source seed size) }
{
    push_opening(out, size)?;
    push_settings(out, seed, size)?;
    push_turns(out, size)?;
    push_closing(out, size)
}

/// The source of the program that a seed and a size make: each image has an array of so many elements with the numbers
/// of the seed, moves them up ten times with the last one of its left neighbour first, and image 1 prints the sum of
/// all.
pub fn make_source(alloc: Global, seed: u32, size: u32) -> Result<Vec<u8>, NoMemory>
    requires seed { seed ≤ 2147483647 }
    requires size { (1 ≤ size) × (size ≤ 4096) }
    ensures { IfOk result (λ v. v.items ≡ made_source seed size) }
{
    let mut out = Vec::new(alloc);
    push_source(&mut out, seed, size)?;
    Ok(out)
}

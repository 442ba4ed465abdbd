//! The text of numbers and logicals, byte for byte.
//! It stands on `caf_base` and on the kit's `itoa`, which makes the digits.
//! `caf_report` and `caf_run` stand on it.
//! Its main contract: each call appends exactly the stated bytes to the output (`decimal_text`, `logical_text`,
//! `i_field`), and where memory is wanting it leaves the output as it was.
#![tactic(auto)]

ghost use Rattle.std.specs.Prelude.{◌≡◌, ◌++◌, OnOk, OnErr, replicate};
ghost use Rattle.caf_text.specs.Numbers.{decimal_text, logical_text, i_field};

use caf_base::refusal::NoMemory;
use itoa::Buffer;

/// Appends a number in decimal, a negative one with `-` before it.
pub fn push_number(out: &mut Vec<u8>, v: i64) -> Result<(), NoMemory>
    ensures ok { OnOk result (out.new.items ≡ out.old.items ++ decimal_text v) }
    ensures err { OnErr result (out.new.items ≡ out.old.items) }
{
    let mut buffer = Buffer::new();
    out.extend_from_slice(buffer.format(v).as_bytes())?;
    Ok(())
}

/// Appends `T` for true and `F` for false (ISO/IEC 1539-1:2018, 13.7.3).
pub fn push_logical(out: &mut Vec<u8>, b: bool) -> Result<(), NoMemory>
    ensures ok { OnOk result (out.new.items ≡ out.old.items ++ logical_text b) }
    ensures err { OnErr result (out.new.items ≡ out.old.items) }
{
    out.push(if b { b'T' } else { b'F' })?;
    Ok(())
}

/// Appends a number as the edit descriptor `Iw` writes it: with `w` = 0 in as few places as it takes, else at the
/// right of `w` places, or `w` asterisks where it is too wide (ISO/IEC 1539-1:2018, 13.7.2.1 and 13.7.2.2).
pub fn push_i_format(out: &mut Vec<u8>, v: i64, w: u32) -> Result<(), NoMemory>
    ensures ok { OnOk result (out.new.items ≡ out.old.items ++ i_field v w) }
    ensures err { OnErr result (out.new.items ≡ out.old.items) }
{
    if w == 0 {
        return push_number(out, v);
    }
    let mut buffer = Buffer::new();
    let text = buffer.format(v).as_bytes();
    let places = w as usize;
    out.reserve(places)?;
    if text.len() > places {
        out.resize(out.len() + places, b'*').unwrap();
    } else {
        out.resize(out.len() + (places - text.len()), b' ').unwrap();
        out.extend_from_slice(text).unwrap();
    }
    Ok(())
}

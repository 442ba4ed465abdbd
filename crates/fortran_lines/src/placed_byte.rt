//! A byte of the source with its place.

ghost use Rattle.std.specs.Prelude.{◌≡◌};
ghost use Rattle.fortran_lines.specs.PlacedBytes as spec;

use caf_base::place::Pos;

/// A byte of the source, and where it stands.
#[derive(Clone, Copy)]
pub struct PlacedByte {
    pub code: u8,
    pub at: Pos,
}

/// Whether it is a blank: a blank or a tab.
pub fn is_blank(mark: PlacedByte) -> bool
    ensures { result ≡ spec.is_blank mark }
{
    mark.code == b' ' || mark.code == b'\t'
}

/// Whether it is one of the two delimiters of a character literal (ISO/IEC 1539-1:2018, 7.4.4).
pub fn is_quote(mark: PlacedByte) -> bool
    ensures { result ≡ spec.is_quote mark }
{
    mark.code == b'\'' || mark.code == b'"'
}

/// A blank in the place of another byte.
pub fn blank_at(mark: PlacedByte) -> PlacedByte
    ensures { result ≡ spec.blank_at mark }
{
    PlacedByte {
        code: b' ',
        at: mark.at,
    }
}

/// Whether all are blanks.
pub fn all_blank(marks: &[PlacedByte]) -> bool
    ensures { result ≡ spec.all_blank marks.now }
{
    marks.iter().all(|mark| is_blank(*mark))
}

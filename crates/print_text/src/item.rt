//! What is to be printed.

ghost use Rattle.std.specs.Prelude.{◌≡◌};
ghost use Rattle.print_text.specs.Items.{text_at};

use crate::items::Items;
use caf_base::listing::Text;

/// What a text keeps in one place: an integer, a truth value, or literals: the one with this number in the table of
/// texts, and so many behind it.
#[derive(Clone, Copy)]
pub enum Portion {
    Integer(i64),
    Logical(bool),
    Literals(u32, u32),
}

/// An item of a PRINT: an integer, a truth value, or a literal by its number in the table of texts.
#[derive(Clone, Copy)]
pub enum Item {
    Integer(i64),
    Logical(bool),
    Literal(usize),
}

/// What a pass over a format comes to, or a part of one: an item of another type than its descriptor takes; the end of
/// output, where an item is wanting; or the items that are left.
#[derive(Clone, Copy)]
pub enum Outcome<'a> {
    Wrong,
    Ended,
    Left(Items<'a>),
}

/// The text with this number; an empty one where there is none.
pub fn text_in(texts: &[Text], number: usize) -> &[u8]
    ensures { result.now ≡ text_at texts.now number }
{
    match texts.get(number) {
        Some(text) => text.as_slice(),
        None => &[],
    }
}

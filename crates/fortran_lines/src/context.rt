//! Character contexts: whether a place of a statement lies within a character literal (ISO/IEC 1539-1:2018, 3.21,
//! 6.3.2.3 and 6.3.2.4).

ghost use Rattle.std.specs.Prelude.{◌≡◌};
ghost use Rattle.fortran_lines.specs.Contexts as spec;

use crate::placed_byte::{PlacedByte, is_quote};

/// The context behind some text of a statement.
#[derive(Clone, Copy)]
pub enum Context {
    /// No literal is open.
    Outside,
    /// A literal is open, which began at this quote.
    Inside(PlacedByte),
    /// The literal that began at this quote has just been closed: the same quote at once takes it up again, since a
    /// doubled quote stands for one.
    Closed(PlacedByte),
}

/// What stands before a line.
#[derive(Clone, Copy)]
pub enum Before {
    /// No continuation.
    Start,
    /// The `&` of a continuation, and the context of the text in front of it.
    Continued(PlacedByte, Context),
}

/// Whether a literal is open.
pub fn is_inside(context: Context) -> bool
    ensures { result ≡ spec.is_inside context }
{
    matches!(context, Context::Inside(_))
}

/// The context behind a byte where no literal is open before it.
fn opened(mark: PlacedByte) -> Context
    ensures { result ≡ spec.opened mark }
{
    if is_quote(mark) {
        Context::Inside(mark)
    } else {
        Context::Outside
    }
}

/// The context behind one more byte.
pub fn behind(context: Context, mark: PlacedByte) -> Context
    ensures { result ≡ spec.behind context mark }
{
    match context {
        Context::Outside => opened(mark),
        Context::Inside(quote) if mark.code == quote.code => Context::Closed(quote),
        Context::Inside(_) => context,
        Context::Closed(quote) if mark.code == quote.code => Context::Inside(quote),
        Context::Closed(_) => opened(mark),
    }
}

/// The context behind some more bytes.
pub fn context_behind(context: Context, text: &[PlacedByte]) -> Context
    ensures { result ≡ spec.context_behind context text.now }
{
    let mut now = context;
    for mark in text {
        now = behind(now, *mark);
    }
    now
}

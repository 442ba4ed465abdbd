//! Printed text, read back: `\n` stands for a line feed and `\\` for a backslash.

ghost use Rattle.std.specs.Prelude.{◌≡◌, ◌<◌, ◌++◌, ◌∷◌, [], ℕ, List, IfOk, IfSome, IfNone, flat_map, length, codes};
ghost use Rattle.caf_events.specs.declared.ask.Ask.TheVariants as asks;
ghost use Rattle.trace_text.specs.TraceText.{escaped};

use caf_base::listing::Listing;
use caf_base::refusal::NoMemory;
use caf_events::ask::Ask;
use std::alloc::Global;

// The first printed byte, and what stands behind it; nothing where the text is empty.
fn first_printed(text: &[u8]) -> Option<(u8, &[u8])>
    ensures byte { (b : ℕ) (behind : List ℕ) → text.now ≡ escaped b ++ behind → IfSome result (λ r. (r.0 ≡ b)
        × (r.1.now ≡ behind)) }
    ensures shorter { IfSome result (λ r. length r.1.now < length text.now) }
    ensures none { IfNone result (text.now ≡ []) }
{
    match text {
        [b'\\', b'n', behind @ ..] => Some((b'\n', behind)),
        [b'\\', b'\\', behind @ ..] => Some((b'\\', behind)),
        [byte, behind @ ..] => Some((*byte, behind)),
        [] => None,
    }
}

// The bytes that a text writes.
fn printed_of(alloc: Global, text: &[u8]) -> Result<Vec<u8>, NoMemory>
    ensures { IfOk result (λ r. (bytes : List ℕ) → text.now ≡ flat_map escaped bytes → r.items ≡ bytes) }
{
    let mut bytes = Vec::new(alloc);
    let mut rest = text;
    while let Some((byte, behind)) = first_printed(rest) {
        bytes.push(byte)?;
        rest = behind;
    }
    Ok(bytes)
}

/// An ask that prints; the text ends where the reply begins, ` > ok` and a line feed.
pub fn print_ask(alloc: Global, rest: &mut &[u8]) -> Result<Ask, NoMemory>
    ensures { IfOk result (λ r. (text : List ℕ) → rest.old.now ≡ flat_map escaped text ++ (32 ∷ codes "> ok\n")
        → (r ≡ asks.Print text) × (rest.new.now ≡ codes "> ok\n")) }
{
    let all = *rest;
    let end = all.len().saturating_sub(5);
    let text = printed_of(alloc, &all[..end.saturating_sub(1)])?;
    *rest = &all[end..];
    Ok(Ask::Print {
        text: Listing::from_vec(text),
    })
}

//! Whether texts are names of coarrays as the text of a trace can show them.

ghost use Rattle.std.specs.Prelude.{◌≡◌, ℕ, List, Decides, Some, slice_get};
ghost use Rattle.std.specs.List.{list_all};
ghost use Rattle.trace_forms.specs.Names as spec;

use caf_base::listing::Text;

// Whether a byte is a letter, a digit, an underscore or a dot.
fn is_name_byte(byte: u8) -> bool
    ensures { result ≡ spec.is_name_byte byte }
{
    byte >= b'0' && byte <= b'9'
        || (byte >= b'A' && byte <= b'Z' || byte >= b'a' && byte <= b'z')
        || byte == b'_'
        || byte == b'.'
}

// Whether each byte of a text is one of these.
fn are_name_bytes(text: &[u8]) -> bool
    ensures { result ≡ list_all spec.is_name_byte text.now }
{
    text.iter().all(|byte| is_name_byte(*byte))
}

// Whether a text is a name: one such byte or more.
fn is_name(text: &[u8]) -> bool
    ensures { Decides result (spec.IsName text.now) }
{
    if text.is_empty() {
        return false;
    }
    are_name_bytes(text)
}

// Whether two texts are alike.
fn are_alike(a: &[u8], b: &[u8]) -> bool
    ensures { Decides result (a.now ≡ b.now) }
{
    a == b
}

// Whether none of the texts is this one.
fn is_new(texts: &[Text], name: &[u8]) -> bool
    ensures { Decides result ((k : ℕ) → slice_get texts.now k ≡ Some name.now → ⊥) }
{
    for text in texts {
        if are_alike(text.as_slice(), name) {
            return false;
        }
    }
    true
}

/// Whether texts are names that differ.
pub(crate) fn are_names(texts: &[Text]) -> bool
    ensures { Decides result (spec.AreNames texts.now) }
{
    for k in 0..texts.len() {
        let text = texts[k].as_slice();
        if !is_name(text) {
            return false;
        }
        if !is_new(&texts[..k], text) {
            return false;
        }
    }
    true
}

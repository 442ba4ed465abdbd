//! Asks at a memory, by their words.

ghost use Rattle.std.specs.Prelude.{◌≡◌, ◌++◌, ◌∷◌, ℕ, List, IfOk};
ghost use Rattle.caf_base.specs.declared.place.Place.TheVariants.{Memory};
ghost use Rattle.caf_base.specs.declared.span.Span.{Span};
ghost use Rattle.caf_base.specs.declared.value.Value.{Value};
ghost use Rattle.caf_base.specs.declared.value.AtomicOp.{AtomicOp};
ghost use Rattle.caf_events.specs.declared.ask.Ask.{Ask};
ghost use Rattle.caf_events.specs.declared.ask.Ask.TheVariants as asks;
ghost use Rattle.caf_events.specs.Asks.{place_of};
ghost use Rattle.trace_theory.specs.Entries.{Each};
ghost use Rattle.trace_text.specs.Words.{ask_word};
ghost use Rattle.trace_text.specs.TraceText.{number_text, name_text, span_text, value_text, values_text, atomic_word};
ghost use Rattle.trace_text.specs.TraceText.{operands_text};
ghost use Rattle.trace_forms.specs.Names.{AreNames};
ghost use Rattle.trace_forms.specs.Ranges.{IsHalf, IsLong, IsValueInRange, HasName, SpanHasText, AskHasText};
ghost use Rattle.trace_reader.specs.Reading.{span_ask};

use caf_base::place::ImageNo;
use caf_base::refusal::NoMemory;
use caf_base::span::Span;
use caf_events::ask::Ask;
use std::alloc::Global;
use trace_fields::fields::{next_field, next_half, next_long};
use trace_fields::lists::{next_value, next_values};
use trace_fields::names::NameTable;
use trace_fields::span::{next_coarray, next_span};
use trace_fields::words::{MemoryWord, memory_word, operator_named};

fn create_ask(names: &NameTable, owner: ImageNo, rest: &mut &[u8]) -> Ask
    requires { AreNames names.now }
    ensures { (coarray cells : ℕ) (behind : List ℕ) → HasName names.now coarray → IsHalf cells → rest.old.now
        ≡ name_text names.now coarray ++ (32 ∷ (number_text cells ++ (32 ∷ behind))) → (result
        ≡ asks.Create owner coarray cells) × (rest.new.now ≡ behind) }
{
    let coarray = next_coarray(names, rest);
    let cells = next_half(rest);
    Ask::Create {
        owner,
        coarray,
        cells,
    }
}

fn write_ask(
    alloc: Global,
    names: &NameTable,
    owner: ImageNo,
    rest: &mut &[u8],
) -> Result<Ask, NoMemory>
    requires { AreNames names.now }
    ensures { IfOk result (λ r. (span : Span) (values : List Value) (behind : List ℕ)
        → SpanHasText names.now span → Each IsValueInRange values → rest.old.now ≡ span_text names.now span
        ++ (32 ∷ (values_text values ++ (32 ∷ behind))) → (r ≡ asks.Write owner span values) × (rest.new.now
        ≡ behind)) }
{
    let span = next_span(alloc, names, rest)?;
    let values = next_values(alloc, rest)?;
    Ok(Ask::Write {
        owner,
        span,
        values,
    })
}

fn atomic_ask(
    alloc: Global,
    names: &NameTable,
    owner: ImageNo,
    rest: &mut &[u8],
) -> Result<Ask, NoMemory>
    requires { AreNames names.now }
    ensures { IfOk result (λ r. (op : AtomicOp) (span : Span) (x y : Value) (behind : List ℕ)
        → SpanHasText names.now span → IsValueInRange x → IsValueInRange y → rest.old.now ≡ atomic_word op
        ++ (32 ∷ (span_text names.now span ++ (32 ∷ (value_text x ++ (32 ∷ (value_text y ++ (32 ∷ behind)))))))
        → (r ≡ asks.Atomic owner op span x y) × (rest.new.now ≡ behind)) }
{
    let op = operator_named(next_field(rest));
    let span = next_span(alloc, names, rest)?;
    let x = next_value(rest);
    let y = next_value(rest);
    Ok(Ask::Atomic {
        owner,
        op,
        span,
        x,
        y,
    })
}

fn wait_ask(
    alloc: Global,
    names: &NameTable,
    owner: ImageNo,
    rest: &mut &[u8],
) -> Result<Ask, NoMemory>
    requires { AreNames names.now }
    ensures { IfOk result (λ r. (span : Span) (threshold : ℕ) (behind : List ℕ) → SpanHasText names.now span
        → IsLong threshold → rest.old.now ≡ span_text names.now span ++ (32 ∷ (number_text threshold
        ++ (32 ∷ behind))) → (r ≡ asks.Wait owner span threshold) × (rest.new.now ≡ behind)) }
{
    let span = next_span(alloc, names, rest)?;
    let threshold = next_long(rest);
    Ok(Ask::Wait {
        owner,
        span,
        threshold,
    })
}

// The ask with this word that names cells and nothing else.
fn ask_of_span(word: MemoryWord, owner: ImageNo, span: Span) -> Ask
    ensures { result ≡ span_ask word owner span }
{
    match word {
        MemoryWord::Lock => Ask::Lock { owner, span },
        MemoryWord::TryLock => Ask::TryLock { owner, span },
        MemoryWord::Unlock => Ask::Unlock { owner, span },
        MemoryWord::Post => Ask::Post { owner, span },
        MemoryWord::Query => Ask::Query { owner, span },
        MemoryWord::Free => Ask::Free { owner, span },
        _ => Ask::Read { owner, span },
    }
}

// The same, of the cells in the next field.
fn cells_ask(
    alloc: Global,
    names: &NameTable,
    word: MemoryWord,
    owner: ImageNo,
    rest: &mut &[u8],
) -> Result<Ask, NoMemory>
    requires { AreNames names.now }
    ensures { IfOk result (λ r. (span : Span) (behind : List ℕ) → SpanHasText names.now span
        → rest.old.now ≡ span_text names.now span ++ (32 ∷ behind) → (r ≡ span_ask word owner span)
        × (rest.new.now ≡ behind)) }
{
    let span = next_span(alloc, names, rest)?;
    Ok(ask_of_span(word, owner, span))
}

/// The ask at the memory of an owner that a word begins.
pub(crate) fn memory_ask(
    alloc: Global,
    names: &NameTable,
    owner: ImageNo,
    word: &[u8],
    rest: &mut &[u8],
) -> Result<Ask, NoMemory>
    requires { AreNames names.now }
    ensures { IfOk result (λ r. (of_team : ℕ → List ℕ) (ask : Ask) (behind : List ℕ) → place_of ask
        ≡ Memory owner → AskHasText names.now ask → word.now ≡ ask_word ask
        → 32 ∷ rest.old.now ≡ operands_text of_team names.now ask ++ (32 ∷ behind) → (r ≡ ask) × (rest.new.now
        ≡ behind)) }
{
    match memory_word(word) {
        MemoryWord::Mark => Ok(Ask::Mark { owner }),
        MemoryWord::Create => Ok(create_ask(names, owner, rest)),
        MemoryWord::Delete => Ok(Ask::Delete {
            owner,
            coarray: next_coarray(names, rest),
        }),
        MemoryWord::Write => write_ask(alloc, names, owner, rest),
        MemoryWord::Atomic => atomic_ask(alloc, names, owner, rest),
        MemoryWord::Wait => wait_ask(alloc, names, owner, rest),
        MemoryWord::Read => cells_ask(alloc, names, MemoryWord::Read, owner, rest),
        MemoryWord::Lock => cells_ask(alloc, names, MemoryWord::Lock, owner, rest),
        MemoryWord::TryLock => cells_ask(alloc, names, MemoryWord::TryLock, owner, rest),
        MemoryWord::Unlock => cells_ask(alloc, names, MemoryWord::Unlock, owner, rest),
        MemoryWord::Post => cells_ask(alloc, names, MemoryWord::Post, owner, rest),
        MemoryWord::Query => cells_ask(alloc, names, MemoryWord::Query, owner, rest),
        MemoryWord::Free => cells_ask(alloc, names, MemoryWord::Free, owner, rest),
    }
}

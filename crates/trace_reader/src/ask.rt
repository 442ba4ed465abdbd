//! The object and the ask of a line.

ghost use Rattle.std.specs.Prelude.{◌≡◌, ◌++◌, ◌∷◌, ℕ, List, IfOk};
ghost use Rattle.caf_base.specs.declared.place.Place.{Place};
ghost use Rattle.caf_base.specs.declared.place.Place.TheVariants.{Own};
ghost use Rattle.caf_events.specs.declared.ask.Ask.{Ask};
ghost use Rattle.caf_events.specs.declared.ask.Ask.TheVariants as asks;
ghost use Rattle.caf_events.specs.declared.fault.FaultKind.{FaultKind};
ghost use Rattle.caf_events.specs.declared.reply.Reply.{Reply};
ghost use Rattle.caf_events.specs.Asks.{place_of};
ghost use Rattle.trace_text.specs.Words.{ask_word, fault_word};
ghost use Rattle.trace_text.specs.TraceText.{number_text, place_word, ask_text, operands_text};
ghost use Rattle.trace_forms.specs.Names.{AreNames};
ghost use Rattle.trace_forms.specs.Ranges.{IsLong, AskHasText};
ghost use Rattle.trace_forms.specs.Replies.{HasForm};
ghost use Rattle.trace_fields.specs.declared.words.LimitWord.{LimitWord};
ghost use Rattle.trace_reader.specs.Reading.{ShowTeams, PlaceHasText, reply_part, limit_ask, limit_name};

use crate::board::board_ask;
use crate::memory::memory_ask;
use caf_base::place::{ImageNo, Place};
use caf_base::refusal::NoMemory;
use caf_events::ask::Ask;
use std::alloc::Global;
use trace_fields::escapes::print_ask;
use trace_fields::fields::{next_field, next_long, next_signed};
use trace_fields::names::NameTable;
use trace_fields::numbers::half_of;
use trace_fields::words::{LimitWord, OwnWord, fault_named, limit_word, own_word};

// The object that a field names.
fn place_named(field: &[u8]) -> Place
    ensures { (place : Place) → PlaceHasText place → field.now ≡ place_word place → result ≡ place }
{
    let Some((first, owner)) = field.split_first() else {
        return Place::Own;
    };
    if *first == b'm' {
        return Place::Memory(ImageNo(half_of(owner)));
    }
    if *first == b'b' {
        return Place::Board;
    }
    Place::Own
}

fn limit_of(word: LimitWord, number: u64) -> Ask
    ensures { result ≡ limit_ask word number }
{
    match word {
        LimitWord::Statements => Ask::LimitStatements { number },
        LimitWord::Words => Ask::LimitWords { number },
        LimitWord::Stamp => Ask::LimitStamp { number },
    }
}

// The limit in the next field, with its number.
fn next_limit(rest: &mut &[u8]) -> Ask
    ensures { (limit : LimitWord) (number : ℕ) (behind : List ℕ) → IsLong number
        → rest.old.now ≡ limit_name limit ++ (32 ∷ (number_text number ++ (32 ∷ behind)))
        → (result ≡ limit_ask limit number) × (rest.new.now ≡ behind) }
{
    let limit = limit_word(next_field(rest));
    let number = next_long(rest);
    limit_of(limit, number)
}

// The fault in the next field.
fn next_fault(rest: &mut &[u8]) -> Ask
    ensures { (kind : FaultKind) (behind : List ℕ) → rest.old.now ≡ fault_word kind ++ (32 ∷ behind)
        → (result ≡ asks.Fault kind) × (rest.new.now ≡ behind) }
{
    let kind = fault_named(next_field(rest));
    Ask::Fault { kind }
}

// The step of an image alone that a word begins.
fn own_ask(alloc: Global, word: &[u8], rest: &mut &[u8]) -> Result<Ask, NoMemory>
    ensures { IfOk result (λ r. (of_team : ℕ → List ℕ) (names : List (List ℕ)) (ask : Ask) (reply : Reply)
        → place_of ask ≡ Own → AskHasText names ask → HasForm ask reply → word.now ≡ ask_word ask
        → 32 ∷ rest.old.now ≡ operands_text of_team names ask ++ (32 ∷ reply_part reply) → (r ≡ ask)
        × (rest.new.now ≡ reply_part reply)) }
{
    match own_word(word) {
        OwnWord::Print => print_ask(alloc, rest),
        OwnWord::Memory => Ok(Ask::Memory),
        OwnWord::Fail => Ok(Ask::Fail),
        OwnWord::ErrorStop => Ok(Ask::ErrorStop {
            code: next_signed(rest),
        }),
        OwnWord::Fault => Ok(next_fault(rest)),
        OwnWord::Limit => Ok(next_limit(rest)),
    }
}

/// The ask of a line, from its object on; the reply is left.
pub(crate) fn read_ask(alloc: Global, names: &NameTable, rest: &mut &[u8]) -> Result<Ask, NoMemory>
    requires { AreNames names.now }
    ensures { IfOk result (λ r. (of_team : ℕ → List ℕ) (ask : Ask) (reply : Reply) → ShowTeams of_team
        → AskHasText names.now ask → HasForm ask reply
        → rest.old.now ≡ place_word (place_of ask) ++ (32 ∷ (ask_text of_team names.now ask
        ++ (32 ∷ reply_part reply))) → (r ≡ ask) × (rest.new.now ≡ reply_part reply)) }
{
    let place = place_named(next_field(rest));
    let word = next_field(rest);
    match place {
        Place::Memory(owner) => memory_ask(alloc, names, owner, word, rest),
        Place::Board => board_ask(alloc, names, word, rest),
        Place::Own => own_ask(alloc, word, rest),
    }
}

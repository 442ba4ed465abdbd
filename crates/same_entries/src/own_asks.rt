//! Whether two steps of an image alone are the same: a function for each variant, and one for all of them.

ghost use Rattle.std.specs.Prelude.{◌≡◌, Decides};
ghost use Rattle.caf_base.specs.declared.place.Place.TheVariants.{Own};
ghost use Rattle.caf_events.specs.Asks.{place_of};
ghost use Rattle.caf_events.specs.declared.ask.Ask.TheVariants as asks;

use crate::parts::{same_bytes, same_fault};
use caf_events::ask::Ask;
use caf_events::fault::FaultKind;

fn is_print(ask: &Ask, text: &[u8]) -> bool
    ensures { Decides result (ask.now ≡ asks.Print text.now) }
{
    match ask {
        Ask::Print { text: the_text } => same_bytes(the_text.as_slice(), text),
        _ => false,
    }
}

fn is_memory(ask: &Ask) -> bool
    ensures { Decides result (ask.now ≡ asks.Memory) }
{
    match ask {
        Ask::Memory => true,
        _ => false,
    }
}

fn is_fail(ask: &Ask) -> bool
    ensures { Decides result (ask.now ≡ asks.Fail) }
{
    match ask {
        Ask::Fail => true,
        _ => false,
    }
}

fn is_error_stop(ask: &Ask, code: i64) -> bool
    ensures { Decides result (ask.now ≡ asks.ErrorStop code) }
{
    match ask {
        Ask::ErrorStop { code: the_code } => *the_code == code,
        _ => false,
    }
}

fn is_fault(ask: &Ask, kind: FaultKind) -> bool
    ensures { Decides result (ask.now ≡ asks.Fault kind) }
{
    match ask {
        Ask::Fault { kind: the_kind } => same_fault(*the_kind, kind),
        _ => false,
    }
}

fn is_limit_statements(ask: &Ask, number: u64) -> bool
    ensures { Decides result (ask.now ≡ asks.LimitStatements number) }
{
    match ask {
        Ask::LimitStatements { number: the_number } => *the_number == number,
        _ => false,
    }
}

fn is_limit_words(ask: &Ask, number: u64) -> bool
    ensures { Decides result (ask.now ≡ asks.LimitWords number) }
{
    match ask {
        Ask::LimitWords { number: the_number } => *the_number == number,
        _ => false,
    }
}

fn is_limit_stamp(ask: &Ask, number: u64) -> bool
    ensures { Decides result (ask.now ≡ asks.LimitStamp number) }
{
    match ask {
        Ask::LimitStamp { number: the_number } => *the_number == number,
        _ => false,
    }
}

/// Whether an ask is the other one, which is a step of the image alone.
pub(crate) fn same_own(a: &Ask, b: &Ask) -> bool
    requires { place_of b.now ≡ Own }
    ensures { Decides result (a.now ≡ b.now) }
{
    match b {
        Ask::Print { text } => is_print(a, text.as_slice()),
        Ask::Memory => is_memory(a),
        Ask::Fail => is_fail(a),
        Ask::ErrorStop { code } => is_error_stop(a, *code),
        Ask::Fault { kind } => is_fault(a, *kind),
        Ask::LimitStatements { number } => is_limit_statements(a, *number),
        Ask::LimitWords { number } => is_limit_words(a, *number),
        Ask::LimitStamp { number } => is_limit_stamp(a, *number),
        _ => false,
    }
}

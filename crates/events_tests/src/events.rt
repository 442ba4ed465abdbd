//! Asks and replies are copied as they are and kept as they are; an event has its words, and may end the run.

ghost use Rattle.std.specs.Prelude.{◌≡◌, ◌<◌, ◌^◌};
ghost use Rattle.caf_events.specs.Events.{words_by};
ghost use Rattle.caf_events.specs.declared.reply.Reply.TheVariants as replies;

use caf_base::copying::TryCopy;
use caf_base::few::Few;
use caf_base::listing::Listing;
use caf_base::place::{ImageNo, Place, TeamNo};
use caf_base::short::Short;
use caf_base::span::Span;
use caf_base::value::Value;
use caf_events::ask::Ask;
use caf_events::event::Event;
use caf_events::exchange::Exchange;
use caf_events::reply::{FormedTeam, Reply};
use caf_events::round::{Allotted, Arriving, RoundKind};
use std::alloc::Global;
use std::fmt::Debug;
use std::process::Abort;

// The words of `Debug` for a value, which is given up.
fn shown<R: Abort, T: Debug + Drop>(rt: &R, alloc: Global, value: T) -> String {
    let text = format!(in alloc; "{value:?}");
    drop(value);
    text.expect(rt, "memory")
}

fn is_copied<R: Abort, T: TryCopy + Debug + Drop>(rt: &R, alloc: Global, value: T) {
    let copy = value.copy().expect(rt, "memory");
    let copied = shown(rt, alloc, copy);
    let own = shown(rt, alloc, value);
    assert!(rt; copied == own);
}

fn listing<R: Abort, T: Copy + Drop>(rt: &R, alloc: Global, items: &[T]) -> Listing<T> {
    Listing::from_slice(alloc, items).expect(rt, "memory")
}

// Whether a step is kept and copied as it was made.
fn is_kept<R: Abort>(rt: &R, alloc: Global, ask: Ask, reply: Reply) {
    let made = Exchange::new(alloc, &ask, &reply).expect(rt, "memory");
    let told = made.copy().expect(rt, "memory");
    let kept = shown(rt, alloc, told.ask(alloc));
    assert!(rt; kept == shown(rt, alloc, ask));
    let kept = shown(rt, alloc, told.reply(alloc));
    assert!(rt; kept == shown(rt, alloc, reply));
}

fn event<R: Abort>(rt: &R, alloc: Global, ask: Ask) -> Event
    ensures ask { result.ask ≡ ask }
    ensures reply { result.reply ≡ replies.Done }
{
    let told = Exchange::new(alloc, &ask, &Reply::Done);
    drop(ask);
    Event::new(told.expect(rt, "memory"), 7, 3)
}

fn has_words<R: Abort>(rt: &R, alloc: Global, ask: Ask, words: u64)
    requires { words_by ask replies.Done < 2 ^ 64 }
{
    let event = event(rt, alloc, ask);
    let has = event.words();
    drop(event);
    assert!(rt; has == words);
}

fn ends<R: Abort>(rt: &R, alloc: Global, ask: Ask, is_end: bool) {
    let event = event(rt, alloc, ask);
    let ends = event.ends_run();
    drop(event);
    assert!(rt; ends == is_end);
}

#[test]
fn asks_and_replies_are_copied(rt: HostRuntime) {
    let alloc = rt.alloc();
    let pair = [Value::Int(5), Value::Bool(true)];
    let values = Few::from_slice(alloc, &pair).expect(&rt, "memory");
    is_copied(&rt, alloc, Reply::Values { values });
    let images = listing(&rt, alloc, &[ImageNo(1), ImageNo(3)]);
    is_copied(&rt, alloc, Ask::Pair { images });
    let formed = FormedTeam {
        team: TeamNo(2),
        number: 9,
        members: listing(&rt, alloc, &[ImageNo(1), ImageNo(3)]),
    };
    is_copied(&rt, alloc, formed);
}

#[test]
fn what_a_round_brings_is_copied(rt: HostRuntime) {
    let alloc = rt.alloc();
    let allotted = Allotted {
        coarray: 1,
        dims: Short::from_slice(alloc, &[(1, 4)]).expect(&rt, "memory"),
        codims: Short::new(alloc),
        last: 1,
    };
    let list = Listing::of_one(alloc, allotted).expect(&rt, "memory");
    is_copied(&rt, alloc, Arriving::Allocate { list });
    let list = listing(&rt, alloc, &[1, 2]);
    is_copied(&rt, alloc, RoundKind::Deallocate { list });
}

#[test]
fn a_step_is_kept(rt: HostRuntime) {
    let alloc = rt.alloc();
    let span = Span {
        coarray: 2,
        start: 9,
        dims: Short::new(alloc),
    };
    let owner = ImageNo(3);
    let values = Few::of_one(Value::Int(-5));
    is_kept(
        &rt,
        alloc,
        Ask::Read { owner, span },
        Reply::Values { values },
    );
    is_kept(&rt, alloc, Ask::Unpair, Reply::Number { status: 0 });
}

#[test]
fn an_event_has_words_and_may_end_the_run(rt: HostRuntime) {
    let alloc = rt.alloc();
    assert!(rt; matches!(Ask::Unpair.place(), Place::Board));
    let text = listing(&rt, alloc, b"123456789");
    has_words(&rt, alloc, Ask::Print { text }, 6);
    has_words(&rt, alloc, Ask::Gone, 0);
    ends(&rt, alloc, Ask::ErrorStop { code: 1 }, true);
    ends(&rt, alloc, Ask::Fail, false);
}

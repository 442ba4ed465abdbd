//! Whether two events are the same.

ghost use Rattle.std.specs.Prelude.{◌≡◌, Decides};

use crate::asks::same_ask;
use crate::replies::same_reply;
use caf_events::event::Event;
use caf_events::exchange::Exchange;
use std::alloc::Global;

fn same_asked(alloc: Global, a: &Exchange, b: &Exchange) -> bool
    ensures { Decides result (a.now.ask ≡ b.now.ask) }
{
    let ask = a.ask(alloc);
    let other = b.ask(alloc);
    let same = same_ask(&ask, &other);
    drop(ask);
    drop(other);
    same
}

fn same_replied(alloc: Global, a: &Exchange, b: &Exchange) -> bool
    ensures { Decides result (a.now.reply ≡ b.now.reply) }
{
    let reply = a.reply(alloc);
    let other = b.reply(alloc);
    let same = same_reply(&reply, &other);
    drop(reply);
    drop(other);
    same
}

// Whether two asks with their replies are the same.
fn same_told(alloc: Global, a: &Exchange, b: &Exchange) -> bool
    ensures { Decides result (a.now ≡ b.now) }
{
    same_asked(alloc, a, b) && same_replied(alloc, a, b)
}

/// Whether two events are the same: ask, reply, stamp and line. It takes no memory.
pub fn same_event(alloc: Global, a: &Event, b: &Event) -> bool
    ensures { Decides result (a.now ≡ b.now) }
{
    a.stamp() == b.stamp() && a.line() == b.line() && same_told(alloc, a.told(), b.told())
}

//! The rule of a gate, and what each kind of step tells the seat that makes it.

ghost use Rattle.std.specs.Prelude.{ℕ, [], ◌∷◌};
ghost use Rattle.caf_events.specs.declared.ask.Ask.TheVariants as asks;
ghost use Rattle.caf_events.specs.declared.reply.Reply.TheVariants as replies;
ghost use Rattle.caf_events.specs.declared.event.Entry.{Entry};
ghost use Rattle.turn_gate.specs.Gates.{Keeps, IsLike, IsRecorded, first_view, with_image, newcomer, gathered, spent_view};
ghost use Rattle.turn_gate.specs.Steps.{Seizes, Records, Leaves};

use crate::view::View;
use atomic_table::{Join, Play, Split, TableRule};
use caf_events::object::Object;
use std::marker::{Brand, PhantomData};
use std::snapshot::Snapshot;

/// The rule of a gate that was made from the object of the key.
pub struct GateRule<O> {
    object: PhantomData<O>,
}

impl<O: Object> TableRule<Option<O>, View, Snapshot<O>> for GateRule<O> {
    ghost holds = { λ key. Keeps O.history (IsLike O.made key.value) (IsRecorded O.ready_after O.reply_after (O.made key.value)) };

    ghost first = { λ key. first_view };
}

/// What is known of the object that is taken; each call picks it.
pub trait Taken<O> {
    ghost known: { O → Type 0 };
}

impl<O> Taken<O> for Brand {
    ghost known = { λ _. Unit {0} };
}

/// The turn is seized, where no seat has it.
pub struct Seize<J> {
    taken: PhantomData<J>,
}

impl<O: Object, J: Taken<O>> Play<Option<O>, View> for Seize<J> {
    ghost then = { Seizes O.history J.known };
}

/// The entry that is recorded; each call picks it.
pub trait Noted {
    ghost noted: { Entry };
}

impl Noted for Brand {
    ghost noted = { record { image = record { 0 = 0 }; event = record { ask = asks.Unpair; reply = replies.Done; stamp = 0; line = 0 } } };
}

/// The turn is given up, and an entry was applied in it.
pub struct Record<J> {
    noted: PhantomData<J>,
}

impl<O, J: Noted> Play<O, View> for Record<J> {
    ghost then = { Records J.noted };
}

/// The turn is given up, and the object is as before.
pub struct Leave;

impl<O> Play<O, View> for Leave {
    ghost then = { Leaves };
}

/// The number of the image for which a seat is split; each call picks it.
pub trait Numbered {
    ghost number: { ℕ };
}

impl Numbered for Brand {
    ghost number = { 0 };
}

/// A seat for an image is split from the first one.
pub struct Cut<J> {
    number: PhantomData<J>,
}

impl<J: Numbered> Split<View> for Cut<J> {
    ghost left = { with_image J.number };

    ghost right = { newcomer J.number };
}

/// A seat is given back to the first one.
pub struct Gather;

impl Join<View> for Gather {
    ghost both = { gathered };

    ghost spent = { spent_view };
}

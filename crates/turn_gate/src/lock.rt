//! The lock round an object: a seat seizes the turn, takes the object out of the slot, puts it back and gives the
//! turn up.

ghost use Rattle.std.specs.Prelude.{◌≡◌, ℕ, ◌+◌, ◌%◌, ◌^◌, ◌<◌, ◌++◌, List, [], ◌∷◌, length, true, false, Some, None, MatchBool};
ghost use Rattle.turn_gate.specs.Lists.{entry};
ghost use Rattle.turn_gate.specs.Gates.{IsLike, IsRecorded};
ghost use Rattle.turn_gate.specs.Steps.{Holds, noted, rested};
ghost use Rattle.turn_gate.specs.Turns.{MayRecord, SameSeat, Tells, history_by, noted_by};

use crate::rule::{GateRule, Leave, Noted, Record, Seize, Taken};
use crate::turn::{Turn, serve_at};
use crate::view::View;
use atomic_table::{Seat, Table};
use caf_base::hook::{Hook, HookStep};
use caf_base::place::ImageNo;
use caf_events::ask::Ask;
use caf_events::event::Event;
use caf_events::object::Object;
use crossbeam_utils::Backoff;
use std::alloc::Global;
use std::marker::Brand;
use std::snapshot::Snapshot;
use std::sync::Wait;

// The word of the table, and its slot.
pub(crate) const STATE: usize = 0;

pub(crate) const OBJECT: usize = 0;

// The object of a slot that isn't empty.
pub(crate) fn out_of<O>(slot: Option<O>) -> O
    requires { (o : O) × (slot ≡ Some o) }
    ensures { slot ≡ Some result }
{
    match slot {
        Some(object) => object,
        None => unreachable!(),
    }
}

/// A lock of one word, twice the number of entries and one more while a seat has the turn, and one slot, which holds
/// the object while no seat has it.
#[derive(Drop)]
pub struct Lock<O: Object> {
    pub(crate) table: Table<Option<O>, View, Snapshot<O>, GateRule<O>, Global>,
    ghost sized: { (table.shared.table_id.words ≡ 1) × (table.shared.table_id.slots ≡ 1) },
}

impl<O: Object> Lock<O> {
    // Seize: where the word is still as it was read, and even, it is one more, and the seat has the turn. True where
    // it has.
    fn try_seize_as<J: Taken<O>>(&self, seat: &mut Seat<Option<O>, View>, state: u64) -> bool
        requires known { (o : O) → IsLike O.made self.now.table.shared.key.value o → IsRecorded O.ready_after O.reply_after (O.made self.now.table.shared.key.value) (O.history o) → J.known o }
        requires seat { seat.old.table_id ≡ self.now.table.shared.table_id }
        requires live { 0 < seat.old.me.0.image }
        requires even { state % 2 ≡ 0 }
        requires off { (seat.old.me.0.turn ≡ false) × (seat.old.me.1 ≡ []) }
        ensures seat { (seat.new.table_id ≡ seat.old.table_id) × (seat.new.id ≡ seat.old.id) }
        ensures holds { MatchBool result (Holds O.history J.known seat.old.me seat.new.me) (seat.new.me ≡ seat.old.me) }
    {
        let found = self
            .table
            .shared
            .compare_exchange::<Seize<J>>(seat, STATE, state, state + 1);
        found == state
    }

    // The same, and it is known which objects a gate has.
    fn try_seize(&self, seat: &mut Seat<Option<O>, View>, state: u64) -> bool
        requires seat { seat.old.table_id ≡ self.now.table.shared.table_id }
        requires live { 0 < seat.old.me.0.image }
        requires even { state % 2 ≡ 0 }
        requires off { (seat.old.me.0.turn ≡ false) × (seat.old.me.1 ≡ []) }
        ensures seat { (seat.new.table_id ≡ seat.old.table_id) × (seat.new.id ≡ seat.old.id) }
        ensures holds { MatchBool result (Holds O.history (λ o. IsLike O.made self.now.table.shared.key.value o × IsRecorded O.ready_after O.reply_after (O.made self.now.table.shared.key.value) (O.history o)) seat.old.me seat.new.me) (seat.new.me ≡ seat.old.me) }
    {
        self.try_seize_as::<Brand>(seat, state)
    }

    // Seize, again and again. This is the one place where a gate waits: whoever runs while the turn is free gets it.
    fn seize<R: Wait>(&self, rt: &R, seat: &mut Seat<Option<O>, View>)
        requires seat { seat.old.table_id ≡ self.now.table.shared.table_id }
        requires live { 0 < seat.old.me.0.image }
        requires off { (seat.old.me.0.turn ≡ false) × (seat.old.me.1 ≡ []) }
        ensures seat { (seat.new.table_id ≡ seat.old.table_id) × (seat.new.id ≡ seat.old.id) }
        ensures holds { Holds O.history (λ o. IsLike O.made self.now.table.shared.key.value o × IsRecorded O.ready_after O.reply_after (O.made self.now.table.shared.key.value) (O.history o)) seat.old.me seat.new.me }
    {
        let backoff = Backoff::new();
        for _ in rt.forever() {
            let state = self.table.shared.peek(STATE);
            if state % 2 == 0 && self.try_seize(seat, state) {
                return;
            }
            backoff.snooze();
        }
        unreachable!()
    }

    // Take: the object comes out of the slot.
    fn take(&self, seat: &mut Seat<Option<O>, View>) -> O
        requires seat { seat.old.table_id ≡ self.now.table.shared.table_id }
        requires holds { (o : O) × (seat.old.me.1 ≡ (0, Some o) ∷ []) }
        ensures seat { (seat.new.table_id ≡ seat.old.table_id) × (seat.new.id ≡ seat.old.id) }
        ensures object { seat.old.me.1 ≡ (0, Some result) ∷ [] }
        ensures empty { seat.new.me ≡ (seat.old.me.0, (0, None) ∷ []) }
    {
        out_of(self.table.shared.exchange(seat, OBJECT, None))
    }

    // Return: the object goes into the slot.
    fn put_back(&self, seat: &mut Seat<Option<O>, View>, object: O)
        requires seat { seat.old.table_id ≡ self.now.table.shared.table_id }
        requires empty { seat.old.me.1 ≡ (0, None) ∷ [] }
        ensures seat { (seat.new.table_id ≡ seat.old.table_id) × (seat.new.id ≡ seat.old.id) }
        ensures object { seat.new.me ≡ (seat.old.me.0, (0, Some object) ∷ []) }
    {
        let found = self.table.shared.exchange(seat, OBJECT, Some(object));
        let None = found else { unreachable!() };
    }

    // Record: the slot goes home, and one entry more is counted.
    fn record_as<J: Noted>(&self, seat: &mut Seat<Option<O>, View>, image: ImageNo, event: &Event)
        requires seat { seat.old.table_id ≡ self.now.table.shared.table_id }
        requires entry { J.noted ≡ entry image.0 event.now }
        requires live { (0 < image.0) × (seat.old.me.0.image ≡ image.0) × (seat.old.me.0.turn ≡ true) }
        requires short { length seat.old.me.0.seen + 1 < 2 ^ 63 }
        requires recorded { IsRecorded O.ready_after O.reply_after (O.made self.now.table.shared.key.value) (seat.old.me.0.seen ++ entry image.0 event.now ∷ []) }
        requires whole { (o : O) × (seat.old.me.1 ≡ (0, Some o) ∷ []) × (O.history o ≡ seat.old.me.0.seen ++ entry image.0 event.now ∷ []) × IsLike O.made self.now.table.shared.key.value o }
        ensures seat { (seat.new.table_id ≡ seat.old.table_id) × (seat.new.id ≡ seat.old.id) }
        ensures noted { seat.new.me ≡ (noted seat.old.me.0 (entry image.0 event.now), []) }
    {
        self.table.shared.fetch_add::<Record<J>>(seat, STATE, 1);
    }

    // The same, of the entry of an image's event.
    fn record(&self, seat: &mut Seat<Option<O>, View>, image: ImageNo, event: &Event)
        requires seat { seat.old.table_id ≡ self.now.table.shared.table_id }
        requires live { (0 < image.0) × (seat.old.me.0.image ≡ image.0) × (seat.old.me.0.turn ≡ true) }
        requires short { length seat.old.me.0.seen + 1 < 2 ^ 63 }
        requires recorded { IsRecorded O.ready_after O.reply_after (O.made self.now.table.shared.key.value) (seat.old.me.0.seen ++ entry image.0 event.now ∷ []) }
        requires whole { (o : O) × (seat.old.me.1 ≡ (0, Some o) ∷ []) × (O.history o ≡ seat.old.me.0.seen ++ entry image.0 event.now ∷ []) × IsLike O.made self.now.table.shared.key.value o }
        ensures seat { (seat.new.table_id ≡ seat.old.table_id) × (seat.new.id ≡ seat.old.id) }
        ensures noted { seat.new.me ≡ (noted seat.old.me.0 (entry image.0 event.now), []) }
    {
        self.record_as::<Brand>(seat, image, event);
    }

    // Leave: the slot goes home, with the object as it was.
    fn leave(&self, seat: &mut Seat<Option<O>, View>)
        requires seat { seat.old.table_id ≡ self.now.table.shared.table_id }
        requires live { (0 < seat.old.me.0.image) × (seat.old.me.0.turn ≡ true) }
        requires whole { (o : O) × (seat.old.me.1 ≡ (0, Some o) ∷ []) × (O.history o ≡ seat.old.me.0.seen) × IsLike O.made self.now.table.shared.key.value o }
        ensures seat { (seat.new.table_id ≡ seat.old.table_id) × (seat.new.id ≡ seat.old.id) }
        ensures rested { seat.new.me ≡ (rested seat.old.me.0, []) }
    {
        self.table.shared.fetch_sub::<Leave>(seat, STATE, 1);
    }

    // Gives the turn up: with Record where an event was made, and else with Leave.
    fn release(&self, seat: &mut Seat<Option<O>, View>, image: ImageNo, turn: &Turn)
        requires seat { seat.old.table_id ≡ self.now.table.shared.table_id }
        requires live { (0 < image.0) × (seat.old.me.0.image ≡ image.0) × (seat.old.me.0.turn ≡ true) }
        requires recorded { MayRecord O.ready_after O.reply_after (O.made self.now.table.shared.key.value) seat.old.me.0.seen image.0 turn.now }
        requires whole { (o : O) × (seat.old.me.1 ≡ (0, Some o) ∷ []) × (O.history o ≡ history_by turn.now image.0 seat.old.me.0.seen) × IsLike O.made self.now.table.shared.key.value o }
        ensures seat { (seat.new.table_id ≡ seat.old.table_id) × (seat.new.id ≡ seat.old.id) }
        ensures noted { seat.new.me ≡ (noted_by turn.now image.0 seat.old.me.0, []) }
    {
        match turn {
            Turn::Done(event) => self.record(seat, image, event),
            Turn::NotYet(_) => self.leave(seat),
            Turn::Full { .. } => self.leave(seat),
            Turn::NoMemory(_) => self.leave(seat),
        }
    }

    /// A whole turn: the object is asked once.
    pub(crate) fn round<R: Wait, H: Hook>(
        &self,
        rt: &R,
        seat: &mut Seat<Option<O>, View>,
        image: ImageNo,
        ask: Ask,
        line: u32,
        after: u64,
        worker: u32,
        hook: &H,
    ) -> Turn
        requires seat { seat.old.table_id ≡ self.now.table.shared.table_id }
        requires live { (0 < image.0) × (seat.old.me.0.image ≡ image.0) }
        requires idle { (seat.old.me.0.turn ≡ false) × (seat.old.me.1 ≡ []) }
        ensures seat { (seat.new.table_id ≡ seat.old.table_id) × (seat.new.id ≡ seat.old.id) }
        ensures idle { (seat.new.me.0.turn ≡ false) × (seat.new.me.1 ≡ []) }
        ensures same { SameSeat seat.old.me.0 seat.new.me.0 }
        ensures tells { Tells O.ready_after O.reply_after (O.made self.now.table.shared.key.value) image.0 seat.old.me.0.seen seat.old.me.0.own seat.new.me.0.seen seat.new.me.0.own ask line after result }
    {
        let place = ask.place();
        hook.at(worker, place, HookStep::Before);
        self.seize(rt, seat);
        let mut object = self.take(seat);
        hook.at(worker, place, HookStep::Holding);
        let turn = serve_at(&mut object, image, ask, line, after);
        self.put_back(seat, object);
        self.release(seat, image, &turn);
        hook.at(worker, place, HookStep::After);
        turn
    }
}

//! The step of one image whose next ask is kept, made at once: nothing is set aside.

ghost use Rattle.std.specs.Prelude.{◌≡◌, ◌<◌, ◌≤◌, ◌+◌, ◌-◌, ◌^◌, ℕ, suc, length, IsTrue, OnOk, OnErr, Some, None, true};
ghost use Rattle.trace_theory.specs.Machines.{Rests};
ghost use Rattle.caf_base.specs.declared.place.Place.TheVariants as places;
ghost use Rattle.caf_events.specs.Histories.{last_stamp_of};
ghost use Rattle.caf_events.specs.Walkers.{AsksNext};
ghost use Rattle.caf_events.specs.declared.ask.Ask.{Ask};
ghost use Rattle.caf_events.specs.declared.event.Event.{Event};
ghost use Rattle.caf_events.specs.declared.reply.Reply.TheVariants as replies;
ghost use Rattle.core_runs.specs.Moments.{can_step, item_at, rules, with_item, Steps};
ghost use Rattle.image_core.specs.NextAsks.{AreNextAsks, AsksNextAt, KeepsNext};
ghost use Rattle.image_core.specs.Parts.{moment, AreNumbered, AreSound, Spends};
ghost use Rattle.image_core.specs.Prepared.{move_of, StepsAt, StepsAlone};

use crate::parts::PartsOf;
use crate::run::ImageRun;
use caf_base::place::{ImageNo, Place};
use caf_base::refusal::NoMemory;
use caf_events::event::Event;
use caf_events::exchange::Exchange;
use caf_events::object::Object;
use caf_events::reply::Reply;
use caf_events::walker::Walker;
use run_outlook::next_asks::NextAsks;

// Makes the step of the kept ask, which the image makes by itself; the ask isn't kept any more. After want of memory it
// isn't made.
fn step_alone<M: Walker>(run: &mut ImageRun<M>, asks: &mut NextAsks) -> Result<(), NoMemory>
    requires kept { KeepsNext (move_of M.Walker run.old) run.old.image.0 asks.old.kept.items }
    requires hears { (ask : Ask) → AsksNext (move_of M.Walker run.old) ask → M.hears (M.config run.old.machine) replies.Done }
    requires after { run.old.last < 2 ^ 62 }
    ensures image { run.new.image ≡ run.old.image }
    ensures step { OnOk result ((e : Event) × StepsAlone M.Walker run.old run.new e) }
    ensures rests { OnOk result (Rests (move_of M.Walker run.new)) }
    ensures spends { OnOk result (M.asks_left (M.config run.new.machine) < M.asks_left (M.config run.old.machine)) }
    ensures taken { OnOk result (asks.new.kept.items ≡ with_item asks.old.kept.items run.old.image.0 None) }
    ensures err { OnErr result ((M.config run.new.machine ≡ M.config run.old.machine) × (run.new.events.items ≡ run.old.events.items)) }
{
    let image = run.image;
    let Some(ask) = asks.get(image) else {
        unreachable!();
    };
    run.make_room()?;
    let told = Exchange::new(*run.events.allocator(), ask, &Reply::Done);
    match told {
        Ok(told) => {
            drop(asks.take(image));
            let event = Event::new(told, run.last + 1, run.machine.line());
            run.take(event);
            Ok(())
        }
        Err(e) => Err(e),
    }
}

// Makes the step of the kept ask at an object, which is ready for it; the ask isn't kept any more. It stays where it is
// until the object takes it. After want of memory the step isn't made.
fn step_at<M: Walker, O: Object>(
    run: &mut ImageRun<M>,
    object: &mut O,
    asks: &mut NextAsks,
) -> Result<(), NoMemory>
    requires kept { KeepsNext (move_of M.Walker run.old) run.old.image.0 asks.old.kept.items }
    requires ready { (ask : Ask) → AsksNext (move_of M.Walker run.old) ask → IsTrue (O.ready_after (O.made object.old) (O.history object.old) run.old.image.0 ask) }
    requires hears { (ask : Ask) → AsksNext (move_of M.Walker run.old) ask → M.hears (M.config run.old.machine) (O.reply_after (O.made object.old) (O.history object.old) run.old.image.0 ask) }
    requires after { run.old.last < 2 ^ 62 }
    requires last { last_stamp_of (O.history object.old) < 2 ^ 62 }
    ensures image { run.new.image ≡ run.old.image }
    ensures step { OnOk result ((e : Event) × StepsAt M.Walker O.Object run.old run.new object.old object.new e) }
    ensures rests { OnOk result (Rests (move_of M.Walker run.new)) }
    ensures spends { OnOk result (M.asks_left (M.config run.new.machine) < M.asks_left (M.config run.old.machine)) }
    ensures taken { OnOk result (asks.new.kept.items ≡ with_item asks.old.kept.items run.old.image.0 None) }
    ensures err { OnErr result ((M.config run.new.machine ≡ M.config run.old.machine) × (run.new.events.items ≡ run.old.events.items)) }
    ensures err_object { OnErr result ((O.made object.new ≡ O.made object.old) × (O.history object.new ≡ O.history object.old)) }
{
    let image = run.image;
    let Some(ask) = asks.get(image) else {
        unreachable!();
    };
    run.make_room()?;
    match object.reserve(image, ask) {
        Ok(told) => {
            let Some(ask) = asks.take(image) else {
                unreachable!();
            };
            let line = run.machine.line();
            let event = object.apply(image, ask, told, line, run.last);
            run.take(event);
            Ok(())
        }
        Err(e) => Err(e),
    }
}

impl<M: Walker, O: Object, B: Object> PartsOf<M, O, B> {
    // Makes the step that the image at a place, from 0, makes by itself.
    fn step_own(&mut self, k: usize, asks: &mut NextAsks) -> Result<(), NoMemory>
        requires image { k < length self.old.images.items }
        requires sound { AreSound M.Walker O.Object B.Object self.old }
        requires asked { AreNextAsks (rules M.Walker O.Object B.Object) (moment M.Walker O.Object B.Object self.old) asks.old.kept.items }
        requires kept { item_at asks.old.kept.items (suc k) ≡ Some None → ⊥ }
        requires place { AsksNextAt (rules M.Walker O.Object B.Object) (moment M.Walker O.Object B.Object self.old) (suc k) places.Own }
        ensures numbered { AreNumbered self.new.images.items }
        ensures step { OnOk result ((e : Event) × Steps (rules M.Walker O.Object B.Object) (moment M.Walker O.Object B.Object self.old) (suc k) e (moment M.Walker O.Object B.Object self.new)) }
        ensures spends { OnOk result (Spends M.asks_left (moment M.Walker O.Object B.Object self.old) (suc k) (moment M.Walker O.Object B.Object self.new)) }
        ensures taken { OnOk result (asks.new.kept.items ≡ with_item asks.old.kept.items (suc k) None) }
        ensures err { OnErr result (moment M.Walker O.Object B.Object self.new ≡ moment M.Walker O.Object B.Object self.old) }
    {
        step_alone(&mut self.images[k], asks)
    }

    // Makes the step of the image at a place, from 0, at the board, which is ready for it.
    fn step_at_board(&mut self, k: usize, asks: &mut NextAsks) -> Result<(), NoMemory>
        requires image { k < length self.old.images.items }
        requires sound { AreSound M.Walker O.Object B.Object self.old }
        requires asked { AreNextAsks (rules M.Walker O.Object B.Object) (moment M.Walker O.Object B.Object self.old) asks.old.kept.items }
        requires kept { item_at asks.old.kept.items (suc k) ≡ Some None → ⊥ }
        requires place { AsksNextAt (rules M.Walker O.Object B.Object) (moment M.Walker O.Object B.Object self.old) (suc k) places.Board }
        requires can { can_step (rules M.Walker O.Object B.Object) (moment M.Walker O.Object B.Object self.old) (suc k) ≡ true }
        ensures numbered { AreNumbered self.new.images.items }
        ensures step { OnOk result ((e : Event) × Steps (rules M.Walker O.Object B.Object) (moment M.Walker O.Object B.Object self.old) (suc k) e (moment M.Walker O.Object B.Object self.new)) }
        ensures spends { OnOk result (Spends M.asks_left (moment M.Walker O.Object B.Object self.old) (suc k) (moment M.Walker O.Object B.Object self.new)) }
        ensures taken { OnOk result (asks.new.kept.items ≡ with_item asks.old.kept.items (suc k) None) }
        ensures err { OnErr result (moment M.Walker O.Object B.Object self.new ≡ moment M.Walker O.Object B.Object self.old) }
    {
        step_at(&mut self.images[k], &mut self.board, asks)
    }

    // Makes the step of the image at a place, from 0, at the memory of an image, which is ready for it.
    fn step_at_memory(
        &mut self,
        k: usize,
        owner: ImageNo,
        asks: &mut NextAsks,
    ) -> Result<(), NoMemory>
        requires image { k < length self.old.images.items }
        requires sound { AreSound M.Walker O.Object B.Object self.old }
        requires asked { AreNextAsks (rules M.Walker O.Object B.Object) (moment M.Walker O.Object B.Object self.old) asks.old.kept.items }
        requires kept { item_at asks.old.kept.items (suc k) ≡ Some None → ⊥ }
        requires place { AsksNextAt (rules M.Walker O.Object B.Object) (moment M.Walker O.Object B.Object self.old) (suc k) (places.Memory owner) }
        requires can { can_step (rules M.Walker O.Object B.Object) (moment M.Walker O.Object B.Object self.old) (suc k) ≡ true }
        requires owner { (0 < owner.0) × (owner.0 ≤ length self.old.memories.items) }
        ensures numbered { AreNumbered self.new.images.items }
        ensures step { OnOk result ((e : Event) × Steps (rules M.Walker O.Object B.Object) (moment M.Walker O.Object B.Object self.old) (suc k) e (moment M.Walker O.Object B.Object self.new)) }
        ensures spends { OnOk result (Spends M.asks_left (moment M.Walker O.Object B.Object self.old) (suc k) (moment M.Walker O.Object B.Object self.new)) }
        ensures taken { OnOk result (asks.new.kept.items ≡ with_item asks.old.kept.items (suc k) None) }
        ensures err { OnErr result (moment M.Walker O.Object B.Object self.new ≡ moment M.Walker O.Object B.Object self.old) }
    {
        let at = (owner.0 - 1) as usize;
        step_at(&mut self.images[k], &mut self.memories[at], asks)
    }

    // The next step of an image that can step, whose next ask is kept and is made at this place. The ask isn't kept any
    // more.
    pub(crate) fn make_step(
        &mut self,
        image: ImageNo,
        place: Place,
        asks: &mut NextAsks,
    ) -> Result<(), NoMemory>
        requires image { (0 < image.0) × (image.0 ≤ length self.old.images.items) }
        requires sound { AreSound M.Walker O.Object B.Object self.old }
        requires asked { AreNextAsks (rules M.Walker O.Object B.Object) (moment M.Walker O.Object B.Object self.old) asks.old.kept.items }
        requires kept { item_at asks.old.kept.items image.0 ≡ Some None → ⊥ }
        requires place { AsksNextAt (rules M.Walker O.Object B.Object) (moment M.Walker O.Object B.Object self.old) image.0 place }
        requires can { can_step (rules M.Walker O.Object B.Object) (moment M.Walker O.Object B.Object self.old) image.0 ≡ true }
        ensures sound { AreSound M.Walker O.Object B.Object self.new }
        ensures step { OnOk result ((e : Event) × Steps (rules M.Walker O.Object B.Object) (moment M.Walker O.Object B.Object self.old) image.0 e (moment M.Walker O.Object B.Object self.new)) }
        ensures spends { OnOk result (Spends M.asks_left (moment M.Walker O.Object B.Object self.old) image.0 (moment M.Walker O.Object B.Object self.new)) }
        ensures taken { OnOk result (asks.new.kept.items ≡ with_item asks.old.kept.items image.0 None) }
        ensures err { OnErr result (moment M.Walker O.Object B.Object self.new ≡ moment M.Walker O.Object B.Object self.old) }
    {
        let k = (image.0 - 1) as usize;
        match place {
            Place::Own => self.step_own(k, asks),
            Place::Board => self.step_at_board(k, asks),
            Place::Memory(owner) => self.step_at_memory(k, owner, asks),
        }
    }
}

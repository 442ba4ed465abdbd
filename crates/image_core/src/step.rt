//! The two halves of one step of one image: what is due is set aside, and then made.

ghost use Rattle.std.specs.Prelude.{◌≡◌, ◌<◌, ◌≤◌, ◌+◌, ◌^◌, ℕ, max, List, [], ◌∷◌, ◌++◌, IfOk, OnOk, OnErr, true, false, vec_len, vec_capacity};
ghost use Rattle.trace_theory.specs.Machines.{Rests};
ghost use Rattle.caf_base.specs.declared.place.Place.TheVariants as places;
ghost use Rattle.caf_events.specs.Asks.{place_of};
ghost use Rattle.caf_events.specs.Histories.{last_stamp_of};
ghost use Rattle.caf_events.specs.Walkers.{IsAtAsk, AsksNext, IsAtLine, Continues};
ghost use Rattle.caf_events.specs.declared.ask.Ask.{Ask};
ghost use Rattle.caf_events.specs.declared.reply.Reply.TheVariants as replies;
ghost use Rattle.caf_events.specs.declared.event.Event.{Event};
ghost use Rattle.core_runs.specs.Lists.{last_of};
ghost use Rattle.image_core.specs.Prepared.{move_of, HasRoom, IsServedNext, StepsAt, IsOwnNext, StepsAlone};

use crate::prepared::Prepared;
use crate::run::ImageRun;
use caf_base::refusal::NoMemory;
use caf_events::ask::Ask;
use caf_events::event::Event;
use caf_events::exchange::Exchange;
use caf_events::object::Object;
use caf_events::reply::Reply;
use caf_events::walker::Walker;
use std::mem;

// The image's next ask, with room for its event and for what the reply brings.
pub(crate) fn next_ask<M: Walker>(run: &mut ImageRun<M>) -> Result<Ask, NoMemory>
    requires at { IsAtAsk (move_of M.Walker run.old) }
    ensures image { run.new.image ≡ run.old.image }
    ensures machine { M.config run.new.machine ≡ M.config run.old.machine }
    ensures events { run.new.events.items ≡ run.old.events.items }
    ensures last { run.new.last ≡ run.old.last }
    ensures prepared { run.new.prepared ≡ run.old.prepared }
    ensures room { OnOk result (HasRoom M.Walker run.new) }
    ensures asked { IfOk result (AsksNext (move_of M.Walker run.old)) }
{
    run.make_room()?;
    run.machine.ask()
}

// The old value is given to the generic `drop`, here and below, which is one goal of the proof; dropped where the new
// one is written, or at the end of a block, it would be one goal for each kind of ask and reply.

// Sets an ask aside that the image makes by itself.
pub(crate) fn prepare_alone<M: Walker>(run: &mut ImageRun<M>, ask: Ask) -> Result<(), NoMemory>
    requires asked { AsksNext (move_of M.Walker run.old) ask }
    requires place { place_of ask ≡ places.Own }
    ensures image { run.new.image ≡ run.old.image }
    ensures machine { run.new.machine ≡ run.old.machine }
    ensures events { run.new.events ≡ run.old.events }
    ensures last { run.new.last ≡ run.old.last }
    ensures prepared { OnOk result (IsOwnNext (move_of M.Walker run.old) run.new.prepared) }
{
    let told = Exchange::new(*run.events.allocator(), &ask, &Reply::Done);
    drop(ask);
    let told = told?;
    drop(mem::replace(&mut run.prepared, Prepared::Own { told }));
    Ok(())
}

// Sets the image's next ask aside, with the reply of its object, where the object is ready.
pub(crate) fn prepare_at<M: Walker, O: Object>(
    run: &mut ImageRun<M>,
    object: &mut O,
    ask: Ask,
) -> Result<bool, NoMemory>
    requires asked { AsksNext (move_of M.Walker run.old) ask }
    ensures image { run.new.image ≡ run.old.image }
    ensures machine { run.new.machine ≡ run.old.machine }
    ensures events { run.new.events ≡ run.old.events }
    ensures last { run.new.last ≡ run.old.last }
    ensures made { O.made object.new ≡ O.made object.old }
    ensures history { O.history object.new ≡ O.history object.old }
    ensures answer { IfOk result (λ b. b ≡ O.ready_after (O.made object.old) (O.history object.old) run.old.image.0 ask) }
    ensures prepared { IfOk result (λ b. b ≡ true → IsServedNext O.Object (move_of M.Walker run.old) run.old.image.0 object.new run.new.prepared) }
{
    let image = run.image;
    if !object.ready(image, &ask) {
        drop(ask);
        return Ok(false);
    }
    match object.reserve(image, &ask) {
        Ok(told) => {
            drop(mem::replace(&mut run.prepared, Prepared::Served { ask, told }));
            Ok(true)
        }
        Err(e) => {
            drop(ask);
            Err(e)
        }
    }
}

// Makes the step that was set aside at an object.
pub(crate) fn commit_at<M: Walker, O: Object>(run: &mut ImageRun<M>, object: &mut O)
    requires at { IsAtAsk (move_of M.Walker run.old) }
    requires room { HasRoom M.Walker run.old }
    requires prepared { IsServedNext O.Object (move_of M.Walker run.old) run.old.image.0 object.old run.old.prepared }
    requires hears { (ask : Ask) → AsksNext (move_of M.Walker run.old) ask → M.hears (M.config run.old.machine) (O.reply_after (O.made object.old) (O.history object.old) run.old.image.0 ask) }
    requires after { run.old.last < 2 ^ 62 }
    requires last { last_stamp_of (O.history object.old) < 2 ^ 62 }
    ensures image { run.new.image ≡ run.old.image }
    ensures step { (e : Event) × StepsAt M.Walker O.Object run.old run.new object.old object.new e }
    ensures rests { Rests (move_of M.Walker run.new) }
    ensures spends { M.asks_left (M.config run.new.machine) < M.asks_left (M.config run.old.machine) }
{
    let image = run.image;
    let line = run.machine.line();
    let after = run.last;
    match mem::replace(&mut run.prepared, Prepared::Nothing) {
        Prepared::Served { ask, told } => {
            let event = object.apply(image, ask, told, line, after);
            run.take(event);
        }
        _ => unreachable!(),
    }
}

// Makes the step that was set aside for the image itself.
pub(crate) fn commit_alone<M: Walker>(run: &mut ImageRun<M>)
    requires at { IsAtAsk (move_of M.Walker run.old) }
    requires room { HasRoom M.Walker run.old }
    requires prepared { IsOwnNext (move_of M.Walker run.old) run.old.prepared }
    requires hears { M.hears (M.config run.old.machine) replies.Done }
    requires after { run.old.last < 2 ^ 62 }
    ensures image { run.new.image ≡ run.old.image }
    ensures step { (e : Event) × StepsAlone M.Walker run.old run.new e }
    ensures rests { Rests (move_of M.Walker run.new) }
    ensures spends { M.asks_left (M.config run.new.machine) < M.asks_left (M.config run.old.machine) }
{
    let line = run.machine.line();
    let stamp = run.last + 1;
    match mem::replace(&mut run.prepared, Prepared::Nothing) {
        Prepared::Own { told } => run.take(Event::new(told, stamp, line)),
        _ => unreachable!(),
    }
}

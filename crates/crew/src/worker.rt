//! What a worker does, and all workers at the same time.

ghost use Rattle.std.specs.Prelude.{IfOk, IsTrue};
ghost use Rattle.image_turns.specs.Turns.{HearsEvery, ArePassesOf, StaysOn};
ghost use Rattle.image_turns.specs.Waits.{Waits};
ghost use Rattle.crew.specs.Crews.{HavePasses, GoOn, SomeEnded, IsThrough, AllHavePasses, members_of};

use crate::member::{Member, Worker};
use crate::resting::{Pace, Pause, Round, both, is_paused, pause_of, refused, rests, round_of};
use caf_base::hook::Hook;
use caf_base::refusal::NoMemory;
use caf_events::object::Object;
use caf_events::walker::{Next, Walker};
use image_core::run::ImageRun;
use image_gate::gates::Gates;
use image_turns::turns::{Told, run_image, run_some};
use std::sync::Wait;
use std::thread;
use std::thread::Threads;

/// So many steps an image makes at most in one round.
const QUANTUM: u32 = 512;

// What an image does without a step.
fn stand_of<M: Walker>(run: &ImageRun<M>, pause: Pause) -> Round {
    match run.want() {
        Next::Ended => Round::Done,
        Next::Ask(_) => {
            if let Pause::Looks { .. } = pause {
                Round::Looks
            } else {
                Round::Quiet
            }
        }
    }
}

// Runs an image of a worker for a while, where it isn't held.
fn run_part<R: Wait, M: Walker, O: Object, B: Object, H: Hook>(
    rt: &R,
    gates: &Gates<O, B>,
    member: &mut Member<M>,
    worker: u32,
    hook: &H,
    last: &mut Told,
) -> Result<Round, NoMemory>
    requires passes { ArePassesOf gates.now.board gates.now.memories.items member.old.run member.old.passes }
    requires hears { HearsEvery M.step M.hears }
    ensures stays { StaysOn M.Walker gates.now.board gates.now.memories.items member.old.run member.old.passes member.new.run member.new.passes }
{
    if is_paused(gates.news(), &mut member.pause, last) {
        return Ok(stand_of(&member.run, member.pause));
    }
    let run = &mut member.run;
    let ran = run_some(
        rt,
        gates,
        run,
        &mut member.passes,
        worker,
        hook,
        QUANTUM,
        &mut member.spin,
    )?;
    *last = refused(&ran, *last);
    member.pause = pause_of(&ran, member.spin.same);
    Ok(round_of(&ran, stand_of(&member.run, Pause::None)))
}

// One round over a worker's images.
fn run_round<R: Wait, M: Walker, O: Object, B: Object, H: Hook>(
    rt: &R,
    gates: &Gates<O, B>,
    members: &mut Vec<Member<M>>,
    worker: u32,
    hook: &H,
) -> Result<Round, NoMemory>
    requires passes { HavePasses gates.now.board gates.now.memories.items members.old.items }
    requires hears { HearsEvery M.step M.hears }
    ensures stays { GoOn M.Walker gates.now.board gates.now.memories.items members.old.items members.new.items }
{
    let mut round = Round::Done;
    let mut last = Told::nowhere();
    for j in 0..members.len() {
        let part = run_part(rt, gates, &mut members[j], worker, hook, &mut last)?;
        round = both(round, part);
    }
    Ok(round)
}

// Whether one of these images made a step that ends the run.
fn has_ended<M: Walker>(members: &Vec<Member<M>>) -> bool
    ensures { IsTrue result → SomeEnded members.now.items }
{
    for j in 0..members.len() {
        if members[j].run.ended_run() {
            return true;
        }
    }
    false
}

// Runs an image until it must wait or has ended. True where it made a step.
fn run_member<R: Wait, M: Walker, O: Object, B: Object, H: Hook>(
    rt: &R,
    gates: &Gates<O, B>,
    member: &mut Member<M>,
    hook: &H,
) -> Result<bool, NoMemory>
    requires passes { ArePassesOf gates.now.board gates.now.memories.items member.old.run member.old.passes }
    requires hears { HearsEvery M.step M.hears }
    ensures stays { StaysOn M.Walker gates.now.board gates.now.memories.items member.old.run member.old.passes member.new.run member.new.passes }
    ensures waits { IfOk result (λ _. Waits O.Object B.Object gates.now.board gates.now.memories.items M.Walker member.new.run member.new.passes) }
{
    run_image(rt, gates, &mut member.run, &mut member.passes, 0, hook)
}

// The last round: each image makes its steps until it must wait or has ended, but for those behind one that makes a
// step that ends the run.
fn run_out<R: Wait, M: Walker, O: Object, B: Object, H: Hook>(
    rt: &R,
    gates: &Gates<O, B>,
    members: &mut Vec<Member<M>>,
    hook: &H,
) -> Result<(), NoMemory>
    requires passes { HavePasses gates.now.board gates.now.memories.items members.old.items }
    requires hears { HearsEvery M.step M.hears }
    ensures stays { GoOn M.Walker gates.now.board gates.now.memories.items members.old.items members.new.items }
    ensures through { IfOk result (λ _. IsThrough O.Object B.Object gates.now.board gates.now.memories.items M.Walker members.new.items) }
{
    for j in 0..members.len() {
        run_member(rt, gates, &mut members[j], hook)?;
        if members[j].run.ended_run() {
            return Ok(());
        }
    }
    Ok(())
}

/// The end of all images, behind the workers: where none made a step that ends the run, each is asked once more.
pub(crate) fn settle<R: Wait, M: Walker, O: Object, B: Object, H: Hook>(
    rt: &R,
    gates: &Gates<O, B>,
    members: &mut Vec<Member<M>>,
    hook: &H,
) -> Result<(), NoMemory>
    requires passes { HavePasses gates.now.board gates.now.memories.items members.old.items }
    requires hears { HearsEvery M.step M.hears }
    ensures stays { GoOn M.Walker gates.now.board gates.now.memories.items members.old.items members.new.items }
    ensures through { IfOk result (λ _. IsThrough O.Object B.Object gates.now.board gates.now.memories.items M.Walker members.new.items) }
{
    if has_ended(members) {
        return Ok(());
    }
    run_out(rt, gates, members, hook)
}

// Runs a worker's images round by round, until all have ended or the run is over for all workers, as where one of them
// makes a step that ends it.
fn run_members<R: Wait, M: Walker, O: Object, B: Object, H: Hook>(
    rt: &R,
    gates: &Gates<O, B>,
    members: &mut Vec<Member<M>>,
    worker: u32,
    workers: usize,
    hook: &H,
) -> Result<(), NoMemory>
    requires passes { HavePasses gates.now.board gates.now.memories.items members.old.items }
    requires hears { HearsEvery M.step M.hears }
    ensures { GoOn M.Walker gates.now.board gates.now.memories.items members.old.items members.new.items }
{
    let mut pace = Pace::new(workers);
    for _ in rt.forever() {
        let round = run_round(rt, gates, members, worker, hook)?;
        if has_ended(members) {
            gates.news().finish();
            return Ok(());
        }
        if rests(rt, gates.news(), members, round, &mut pace) {
            return Ok(());
        }
    }
    unreachable!()
}

// A worker from its start to its end.
fn run_worker<R: Wait, M: Walker, O: Object, B: Object, H: Hook>(
    rt: &R,
    gates: &Gates<O, B>,
    worker: Worker<M>,
    workers: usize,
    hook: &H,
) -> Worker<M>
    requires passes { HavePasses gates.now.board gates.now.memories.items worker.members.items }
    requires hears { HearsEvery M.step M.hears }
    ensures { GoOn M.Walker gates.now.board gates.now.memories.items worker.members.items result.members.items }
{
    let Worker {
        number,
        mut members,
        ..
    } = worker;
    gates.news().start();
    let short = run_members(rt, gates, &mut members, number, workers, hook).is_err();
    if short {
        gates.news().finish();
    }
    gates.news().end();
    Worker {
        number,
        members,
        short,
    }
}

/// All workers, each on a thread where one can be made; the others run one after another.
pub(crate) fn run_workers<
    R: Threads + Wait + Sync,
    M: Walker + Send + Drop,
    O: Object + Send + Drop,
    B: Object + Send + Drop,
    H: Hook + Sync,
>(
    rt: &R,
    gates: &Gates<O, B>,
    workers: Vec<Worker<M>>,
    hook: &H,
) -> Result<Vec<Worker<M>>, NoMemory>
    requires passes { AllHavePasses gates.now.board gates.now.memories.items workers.items }
    requires hears { HearsEvery M.step M.hears }
    ensures { IfOk result (λ done. GoOn M.Walker gates.now.board gates.now.memories.items (members_of workers.items) (members_of done.items)) }
{
    let count = workers.len();
    let done = thread::map_vec(
        rt,
        workers,
        &|worker: Worker<M>| -> Worker<M>
            requires { HavePasses gates.now.board gates.now.memories.items worker.members.items × HearsEvery M.step M.hears }
            ensures { GoOn M.Walker gates.entry.now.board gates.entry.now.memories.items worker.members.items result.members.items }
        { run_worker(rt, gates, worker, count, hook) },
    )?;
    Ok(done)
}

//! Asks and their replies, ask by ask.

ghost use Rattle.std.specs.Prelude.{◌≡◌, ◌<◌, ◌≤◌, length, IfOk};
ghost use Rattle.image_state.specs.Kept.{table_of};
ghost use Rattle.team_tables.specs.Tables.{HasRoom};
ghost use Rattle.image_asks.specs.Asking.{IsPlainAsk, ComesTo, IsAsking, IsAsked, IsAskedAt, GoesOnWith, ask_here};

use crate::operands::{has, image_at, numbers_for, this_image};
use crate::replies::push_status;
use crate::{accesses, allocating, cells, collectives, endings, output, teams};
use caf_base::place::Place;
use caf_base::refusal::NoMemory;
use caf_events::ask::Ask;
use caf_events::reply::Reply;
use image_code::step::AskStep;
use image_state::state::ImageState;

/// What an ask step comes to: an ask; or it stops with this run fault, or because an operand isn't there.
#[derive(Clone, Copy)]
pub enum Asking {
    Asks,
    Fault(u32),
    Stuck,
}

/// What an ask step comes to.
#[tactic(auto, using(crate::proofs::Dispatch::missing, crate::proofs::Dispatch::there))]
pub fn come(image: &ImageState, ask: AskStep) -> Asking
    requires { IsPlainAsk ask }
    ensures { ComesTo (ask_here image.now ask) result }
{
    if !has(image, numbers_for(ask)) {
        return Asking::Stuck;
    }
    match ask {
        AskStep::WriteArray(coarray, rank, kind) => {
            accesses::row_comes(image, coarray, rank, kind)
        }
        AskStep::Wait(coarray) => cells::waits(image, coarray),
        AskStep::Query(coarray) => cells::queries(image, coarray),
        AskStep::Gather(op, kind) => collectives::gather_comes(image, op, kind),
        AskStep::Take => collectives::take_comes(image),
        AskStep::Pair => output::pairs(image),
        AskStep::Leave => teams::leaving(image),
        AskStep::Status => teams::asks_status(image),
        AskStep::Say => output::says(image),
        _ => Asking::Asks,
    }
}

/// The place of an ask.
#[tactic(auto, using(crate::proofs::Dispatch::placed))]
pub fn place_of(image: &ImageState, ask: AskStep) -> Place
    requires plain { IsPlainAsk ask }
    requires asks { IsAsking (ask_here image.now ask) }
    ensures { IsAskedAt (ask_here image.now ask) result }
{
    match ask {
        AskStep::Read(_, _)
        | AskStep::Write(_, _, _)
        | AskStep::WriteArray(_, _, _)
        | AskStep::Lock(_)
        | AskStep::TryLock(_)
        | AskStep::Unlock(_)
        | AskStep::Post(_) => Place::Memory(image_at(image, 0)),
        AskStep::Atomic(_, _, _) => Place::Memory(image_at(image, 2)),
        AskStep::Create(_, _, _) | AskStep::Delete(_) | AskStep::Wait(_) | AskStep::Query(_) => {
            Place::Memory(this_image(image))
        }
        AskStep::Say | AskStep::Memory | AskStep::Fail | AskStep::ErrorStop => Place::Own,
        AskStep::ArriveSync
        | AskStep::ArriveForm
        | AskStep::ArriveChange
        | AskStep::ArriveEnd
        | AskStep::ArriveAllocate(_)
        | AskStep::ArriveDeallocate(_)
        | AskStep::Leave
        | AskStep::Gather(_, _)
        | AskStep::Take
        | AskStep::Pair
        | AskStep::Unpair
        | AskStep::EnterCritical(_)
        | AskStep::ExitCritical(_)
        | AskStep::Failed
        | AskStep::Stopped
        | AskStep::Status
        | AskStep::Stop
        | AskStep::EndProgram => Place::Board,
    }
}

/// An ask.
pub fn ask_of(image: &ImageState, ask: AskStep) -> Result<Ask, NoMemory>
    requires plain { IsPlainAsk ask }
    requires asks { IsAsking (ask_here image.now ask) }
    ensures { IfOk result (λ a. IsAsked (ask_here image.now ask) a) }
{
    match ask {
        AskStep::Read(coarray, rank) => accesses::read(image, coarray, rank),
        AskStep::Write(coarray, rank, kind) => accesses::write(image, coarray, rank, kind),
        AskStep::WriteArray(coarray, rank, kind) => accesses::write_row(image, coarray, rank, kind),
        AskStep::Create(coarray, depth, rank) => {
            Ok(allocating::create(image, coarray, depth, rank))
        }
        AskStep::Delete(coarray) => Ok(allocating::delete(image, coarray)),
        AskStep::Atomic(op, coarray, kind) => Ok(cells::atomic(image, op, coarray, kind)),
        AskStep::Lock(coarray) => Ok(cells::lock(image, coarray)),
        AskStep::TryLock(coarray) => Ok(cells::try_lock(image, coarray)),
        AskStep::Unlock(coarray) => Ok(cells::unlock(image, coarray)),
        AskStep::Post(coarray) => Ok(cells::post(image, coarray)),
        AskStep::Wait(coarray) => Ok(cells::wait(image, coarray)),
        AskStep::Query(coarray) => Ok(cells::query(image, coarray)),
        AskStep::ArriveSync => Ok(teams::arrive_sync(image)),
        AskStep::ArriveForm => Ok(teams::arrive_form(image)),
        AskStep::ArriveChange => Ok(teams::arrive_change(image)),
        AskStep::ArriveEnd => Ok(teams::arrive_end(image)),
        AskStep::ArriveAllocate(n) => allocating::arrive_allocate(image, n),
        AskStep::ArriveDeallocate(n) => allocating::arrive_deallocate(image, n),
        AskStep::Leave => Ok(teams::departure(image)),
        AskStep::Gather(op, kind) => collectives::gather(image, op, kind),
        AskStep::Take => Ok(collectives::take(image)),
        AskStep::Pair => output::pairing(image),
        AskStep::Unpair => Ok(Ask::Unpair),
        AskStep::EnterCritical(construct) => Ok(Ask::Enter { construct }),
        AskStep::ExitCritical(construct) => Ok(Ask::Exit { construct }),
        AskStep::Failed => Ok(teams::failed(image)),
        AskStep::Stopped => Ok(teams::stopped(image)),
        AskStep::Status => Ok(teams::inquiry(image)),
        AskStep::Say => output::printing(image),
        AskStep::Memory => Ok(Ask::Memory),
        AskStep::Fail => Ok(Ask::Fail),
        AskStep::Stop => Ok(endings::stop(image)),
        AskStep::ErrorStop => Ok(endings::error_stop(image)),
        AskStep::EndProgram => Ok(Ask::Stop { code: 0 }),
    }
}

/// Goes on with the reply to an ask.
pub fn hear(image: &mut ImageState, ask: AskStep, reply: &Reply)
    requires plain { IsPlainAsk ask }
    requires asks { IsAsking (ask_here image.old ask) }
    requires room { length image.old.core.values < image.old.rooms.numbers }
    requires place { length image.old.core.arrays < image.old.rooms.arrays }
    requires teams { HasRoom (table_of image.old) }
    ensures { GoesOnWith image.old (ask_here image.old ask) reply.now image.new }
{
    match ask {
        AskStep::Read(coarray, rank) => accesses::hear_read(image, coarray, rank, reply),
        AskStep::Write(coarray, rank, kind) => accesses::hear_write(
            image, coarray, rank, kind, reply,
        ),
        AskStep::WriteArray(coarray, rank, kind) => accesses::hear_row(
            image, coarray, rank, kind, reply,
        ),
        AskStep::Atomic(op, coarray, kind) => cells::hear_atomic(image, op, coarray, kind, reply),
        AskStep::Lock(coarray) => cells::hear_lock(image, coarray, reply),
        AskStep::TryLock(coarray) => cells::hear_try(image, coarray, reply),
        AskStep::Unlock(coarray) => cells::hear_unlock(image, coarray, reply),
        AskStep::Post(coarray) => cells::hear_post(image, coarray, reply),
        AskStep::Wait(coarray) => cells::hear_wait(image, coarray, reply),
        AskStep::Query(coarray) => cells::hear_query(image, coarray, reply),
        AskStep::ArriveSync => teams::join_sync(image, reply),
        AskStep::ArriveForm => teams::join_form(image, reply),
        AskStep::ArriveChange => teams::join_change(image, reply),
        AskStep::ArriveEnd => teams::join_end(image, reply),
        AskStep::ArriveAllocate(n) => allocating::hear_allocate(image, n, reply),
        AskStep::ArriveDeallocate(n) => allocating::hear_deallocate(image, n, reply),
        AskStep::Leave => teams::depart(image, reply),
        AskStep::Gather(op, kind) => collectives::hear_gather(image, op, kind, reply),
        AskStep::Take => collectives::hear_take(image, reply),
        AskStep::Pair => output::forget_indices(image),
        AskStep::Unpair | AskStep::EnterCritical(_) => push_status(image, reply),
        AskStep::Failed => teams::note_failed(image, reply),
        AskStep::Stopped => teams::note_stopped(image, reply),
        AskStep::Status => teams::note_status(image, reply),
        AskStep::Say => output::forget_text(image),
        AskStep::Create(_, _, _)
        | AskStep::Delete(_)
        | AskStep::ExitCritical(_)
        | AskStep::Memory
        | AskStep::Fail
        | AskStep::Stop
        | AskStep::ErrorStop
        | AskStep::EndProgram => {}
    }
}

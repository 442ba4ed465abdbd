//! Whether the last step at the board leaves every other image's asks as ready as they were.

ghost use Rattle.std.specs.Prelude.{◌≡◌, ℕ, List};
ghost use Rattle.caf_events.specs.declared.ask.Ask.TheVariants as asks;
ghost use Rattle.caf_events.specs.declared.reply.Reply.TheVariants as replies;
ghost use Rattle.caf_events.specs.declared.round.Arriving.TheVariants as arrivings;
ghost use Rattle.caf_events.specs.declared.event.Entry.{Entry};
ghost use Rattle.object_rules.specs.BoardRules.{board_ready};
ghost use Rattle.inert_laws.specs.Silent.{is_silent as is_silent_by};
ghost use Rattle.inert_laws.specs.InertSteps.{waits as waits_by, leaves_open as leaves_open_by, is_inert_step};
ghost use Rattle.control_board.specs.Boards.{IsBoard, IsKept};

use crate::parts::{Parts, has_image};
use crate::ready::{can_leave, can_take};
use caf_base::place::{ImageNo, TeamNo};
use caf_events::ask::Ask;
use caf_events::event::Event;
use caf_events::exchange::Exchange;
use caf_events::reply::Reply;
use std::alloc::Global;

// Whether nothing happens at the board by the ask: a departure, FAILED_IMAGES, STOPPED_IMAGES or IMAGE_STATUS.
fn is_silent(ask: &Ask) -> bool
    ensures { result ≡ is_silent_by ask.now }
{
    matches!(
        ask,
        Ask::Leave { .. }
            | Ask::Take { .. }
            | Ask::Unpair
            | Ask::Failed { .. }
            | Ask::Stopped { .. }
            | Ask::Status { .. }
    )
}

// Whether the image can leave the round of an image control statement.
fn leaves(parts: &Parts, image: ImageNo, team: TeamNo, round: u64) -> bool
    requires { IsKept parts.now }
    ensures { (n : ℕ) (h : List Entry) → IsBoard n h parts.now → result ≡ board_ready n h image.0 (asks.Leave team round) }
{
    has_image(parts.images, image) && can_leave(parts, image, team, round)
}

// Whether the image can leave a collective subroutine.
fn takes(parts: &Parts, image: ImageNo, team: TeamNo, round: u64) -> bool
    requires { IsKept parts.now }
    ensures { (n : ℕ) (h : List Entry) → IsBoard n h parts.now → result ≡ board_ready n h image.0 (asks.Take team round) }
{
    has_image(parts.images, image) && can_take(parts, image, team, round)
}

// Whether the image, which joined this round by the ask, can't leave it yet.
fn waits(parts: &Parts, image: ImageNo, round: u64, ask: &Ask) -> bool
    requires { IsKept parts.now }
    ensures { (n : ℕ) (h : List Entry) → IsBoard n h parts.now → result ≡ waits_by n h image.0 round ask.now }
{
    match ask {
        Ask::Arrive { team, .. } => !leaves(parts, image, *team, round),
        Ask::Gather { team, .. } => !takes(parts, image, *team, round),
        _ => false,
    }
}

// Whether the image has joined a round by the ask, and left it open.
fn leaves_open(parts: &Parts, image: ImageNo, ask: &Ask, reply: &Reply) -> bool
    requires { IsKept parts.now }
    ensures { (n : ℕ) (h : List Entry) → IsBoard n h parts.now → result ≡ leaves_open_by n h image.0 ask.now reply.now }
{
    match reply {
        Reply::Round { round } => waits(parts, image, *round, ask),
        _ => false,
    }
}

// Whether the step of the image by this ask with this reply is known to be inert, where it was the last one.
fn is_inert_by(parts: &Parts, image: ImageNo, ask: &Ask, reply: &Reply) -> bool
    requires { IsKept parts.now }
    ensures { (n : ℕ) (h : List Entry) → IsBoard n h parts.now → result ≡ is_inert_step n h image.0 ask.now reply.now }
{
    is_silent(ask) || leaves_open(parts, image, ask, reply)
}

// Whether the arrival of the image at SYNC ALL or SYNC TEAM, by which it joined this round, is known to be inert, where
// it was the last step.
fn is_inert_arrival(parts: &Parts, image: ImageNo, team: TeamNo, round: u64) -> bool
    requires { IsKept parts.now }
    ensures { (n : ℕ) (h : List Entry) → IsBoard n h parts.now → result ≡ is_inert_step n h image.0 (asks.Arrive team arrivings.Sync) (replies.Round round) }
{
    !leaves(parts, image, team, round)
}

// The same of any step, by its ask and its reply, which are made for it.
fn is_inert_exchange(alloc: Global, parts: &Parts, image: ImageNo, told: &Exchange) -> bool
    requires { IsKept parts.now }
    ensures { (n : ℕ) (h : List Entry) → IsBoard n h parts.now → result ≡ is_inert_step n h image.0 told.now.ask told.now.reply }
{
    let asked = told.ask(alloc);
    let said = told.reply(alloc);
    let inert = is_inert_by(parts, image, &asked, &said);
    drop(said);
    drop(asked);
    inert
}

// The same: an arrival that joined a round and a departure from one, which are most steps, are seen without the ask and
// the reply.
fn is_inert_told(alloc: Global, parts: &Parts, image: ImageNo, told: &Exchange) -> bool
    requires { IsKept parts.now }
    ensures { (n : ℕ) (h : List Entry) → IsBoard n h parts.now → result ≡ is_inert_step n h image.0 told.now.ask told.now.reply }
{
    match told.joined() {
        Some((team, round)) => is_inert_arrival(parts, image, team, round),
        None => match told.departed() {
            Some(_) => true,
            None => is_inert_exchange(alloc, parts, image, told),
        },
    }
}

// Whether the event, which the image made last, is known to be inert.
pub(crate) fn is_inert(alloc: Global, parts: &Parts, image: ImageNo, event: &Event) -> bool
    requires { IsKept parts.now }
    ensures { (n : ℕ) (h : List Entry) → IsBoard n h parts.now → result ≡ is_inert_step n h image.0 event.now.ask event.now.reply }
{
    is_inert_told(alloc, parts, image, event.told())
}

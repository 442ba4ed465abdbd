//! The control board: what it keeps, with a history, for proofs, that says what that is.

ghost use Rattle.std.specs.Prelude.{◌≡◌, [], IfOk};

use crate::inert::is_inert;
use crate::parts::{Parts, new_parts};
use crate::ready::is_ready;
use crate::reply::reply;
use crate::step::{make_room, step};
use caf_base::place::ImageNo;
use caf_base::refusal::NoMemory;
use caf_events::ask::Ask;
use caf_events::event::Event;
use caf_events::exchange::Exchange;
use caf_events::history::History;
use caf_events::object::Object;
use inert_steps::inert::Inert;
use std::alloc::Global;
use std::marker::Model;

/// The control board of a run. In a contract it is the number of images, its history, and what it keeps.
#[derive(Drop)]
pub struct Board {
    alloc: Global,
    parts: Parts,
    history: History,
}

impl Model for Board {
    ghost use Rattle.std.specs.Prelude.{◌≤◌, ◌^◌};
    ghost use Rattle.caf_events.specs.Histories.{last_stamp_of};
    ghost use Rattle.control_board.specs.Boards.{BoardState, IsBoard};

    ghost Value = { BoardState };

    ghost view = { λ b. record { images = b.parts.images; history = b.history; parts = b.parts } };

    ghost invariant = { λ b. IsBoard b.parts.images b.history b.parts × (last_stamp_of b.history ≤ 2 ^ 62) };
}

impl Board {
    /// The control board of a run of so many images at its start.
    pub fn new(alloc: Global, images: u32) -> Result<Board, NoMemory>
        ensures made { IfOk result (λ b. b.images ≡ images) }
        ensures history { IfOk result (λ b. b.history ≡ []) }
    {
        Ok(Board {
            alloc,
            parts: new_parts(alloc, images)?,
            history: History::new(),
        })
    }
}

impl Object for Board {
    ghost use Rattle.std.specs.Prelude.{ℕ};
    ghost use Rattle.object_rules.specs.BoardRules.{board_ready, board_reply};
    ghost use Rattle.control_board.specs.Boards.{BoardState, HasRoom};

    ghost Made = { ℕ };

    ghost made = { λ b. b.images };

    ghost history = { λ b. b.history };

    ghost has_room = { λ b image ask. HasRoom b image ask };

    ghost ready_after = { λ n h image ask. board_ready n h image ask };

    ghost reply_after = { λ n h image ask. board_reply n h image ask };

    fn ready(&self, image: ImageNo, ask: &Ask) -> bool {
        is_ready(&self.parts, image, ask)
    }

    fn last_stamp(&self) -> u64 {
        self.history.last_stamp()
    }

    fn reserve(&mut self, image: ImageNo, ask: &Ask) -> Result<Exchange, NoMemory> {
        make_room(self.alloc, &mut self.parts, image, ask)?;
        let told = reply(self.alloc, &self.parts, image, ask)?;
        Exchange::with_reply(self.alloc, ask, told)
    }

    fn apply(&mut self, image: ImageNo, ask: Ask, told: Exchange, line: u32, after: u64) -> Event {
        step(&mut self.parts, image, ask, line);
        self.history.append(image, told, line, after)
    }
}

impl Inert for Board {
    fn is_inert(&self, image: ImageNo, event: &Event) -> bool {
        is_inert(self.alloc, &self.parts, image, event)
    }
}

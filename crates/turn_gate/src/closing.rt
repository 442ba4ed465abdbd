//! A gate that is being closed: its passes come back one by one.

ghost use Rattle.std.specs.Prelude.{◌≡◌, ℕ, ◌<◌, [], map};
ghost use Rattle.caf_events.specs.Histories.{Served};
ghost use Rattle.trace_theory.specs.Entries.{of, Rises};
ghost use Rattle.turn_gate.specs.Lists.{image_of, stamp_of};
ghost use Rattle.turn_gate.specs.Gates.{NotIn, AreAmong};
ghost use Rattle.turn_gate.specs.Passes.{IsPassOf};
ghost use Rattle.turn_gate.specs.Closings.{kept_image, AreBack, took};

use crate::gate::Gate;
use crate::lock::Lock;
use crate::pass::Pass;
use crate::view::View;
use atomic_table::Seat;
use caf_events::object::Object;
use std::marker::Model;

/// A gate whose first pass is back. The others come back one by one, in any order.
#[derive(Drop)]
pub struct Closing<O: Object> {
    lock: Lock<O>,
    seat: Seat<Option<O>, View>,
    images: u32,
}

impl<O: Object> Model for Closing<O> {
    ghost use Rattle.turn_gate.specs.Closings.{Shutting, IsFirstSeat};

    ghost Value = { Shutting O };

    ghost view = { λ c. record { gate = record { id = c.lock.table.shared.table_id; start = c.lock.table.shared.key.value; images = c.images }; images = c.seat.me.0.images; back = c.seat.me.0.kept } };

    ghost invariant = { λ c. IsFirstSeat c.lock.table.shared.table_id c.seat.table_id c.seat.id c.seat.me.1 };
}

impl<O: Object> Gate<O> {
    /// Begins to close the gate, with its first pass.
    pub fn closing(self, first: Pass) -> Closing<O>
        requires { IsPassOf self first × (first.image ≡ 0) }
        ensures { result ≡ record { gate = self; images = first.images; back = [] } }
    {
        let Gate { lock, images } = self;
        let Pass { image: _, badge } = first;
        Closing {
            lock,
            seat: badge.into_seat(),
            images,
        }
    }
}

impl<O: Object> Closing<O> {
    /// Takes an image's pass back.
    pub fn take_back(&mut self, pass: Pass)
        requires { IsPassOf self.old.gate pass × (0 < pass.image) }
        ensures { self.new ≡ took self.old pass }
    {
        let Pass { image: _, badge } = pass;
        self.lock.give_back(&mut self.seat, badge.into_seat());
    }

    /// The object, once each image that was split has given its pass back.
    pub fn finish(self) -> O
        requires { AreAmong self.images (map kept_image self.back) }
        ensures made { O.made result ≡ O.made self.gate.start }
        ensures served { Served (O.ready_after (O.made result)) (O.reply_after (O.made result)) [] (O.history result) }
        ensures rises { Rises stamp_of (O.history result) }
        ensures lists { AreBack (O.history result) self.back }
        ensures others { (i : ℕ) → NotIn i self.images → of image_of i (O.history result) ≡ [] }
    {
        let Closing {
            lock,
            seat,
            images: _,
        } = self;
        lock.finish(seat)
    }
}

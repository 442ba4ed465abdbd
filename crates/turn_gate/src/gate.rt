//! A gate round an object, and its passes.

ghost use Rattle.std.specs.Prelude.{◌≡◌, ℕ, ◌<◌, ◌≤◌, ◌++◌, List, [], ◌∷◌, map, IfOk};
ghost use Rattle.caf_events.specs.Histories.{Served};
ghost use Rattle.trace_theory.specs.Entries.{of, Each, Rises};
ghost use Rattle.turn_gate.specs.Lists.{image_of, stamp_of};
ghost use Rattle.turn_gate.specs.Gates.{NotIn};
ghost use Rattle.turn_gate.specs.Turns.{Tells};
ghost use Rattle.turn_gate.specs.Passes.{first_pass, split_from, with_split, IsPassOf, SamePlace, pass_image, AllOf, Gathers, kept_known};

use crate::lock::Lock;
use crate::pass::Pass;
use crate::turn::Turn;
use crate::view::View;
use atomic_table::{Badge, Seat};
use caf_base::hook::Hook;
use caf_base::place::ImageNo;
use caf_base::refusal::NoMemory;
use caf_events::ask::Ask;
use caf_events::object::Object;
use std::alloc::Global;
use std::marker::Model;
use std::mem;
use std::sync::Wait;

/// An object that images use in turn. In a contract it is which gate it is, and the object that it was made from.
#[derive(Drop)]
pub struct Gate<O: Object> {
    pub(crate) lock: Lock<O>,
    pub(crate) images: u32,
}

impl<O: Object> Model for Gate<O> {
    ghost use Rattle.turn_gate.specs.Passes.{Opened};

    ghost Value = { Opened O };

    ghost view = { λ g. record { id = g.lock.table.shared.table_id; start = g.lock.table.shared.key.value; images = g.images } };
}

impl<O: Object> Gate<O> {
    /// A gate for images 1 to `images` round an object without entries, and its first pass, which belongs to no image
    /// and has split none. On refusal the object is given up.
    pub fn new(alloc: Global, object: O, images: u32) -> Result<(Gate<O>, Pass), NoMemory>
    where
        O: Drop,
        requires { O.history object ≡ [] }
        ensures gate { IfOk result (λ r. (r.0.start ≡ object) × (r.0.images ≡ images)) }
        ensures pass { IfOk result (λ r. r.1 ≡ first_pass r.0) }
    {
        let (lock, seat) = Lock::open(alloc, object)?;
        let pass = Pass {
            image: ImageNo(0),
            badge: seat.into_badge(),
        };
        Ok((Gate { lock, images }, pass))
    }

    /// A pass for an image, which has made no entry; the image joins the first pass's list. Conditions: the pass is
    /// this gate's first one, and the image is one of the gate's and not in that list.
    pub fn split(&self, pass: &mut Pass, image: ImageNo) -> Pass
        requires gate { IsPassOf self.now pass.old }
        requires first { pass.old.image ≡ 0 }
        requires image { (0 < image.0) × (image.0 ≤ self.now.images) × NotIn image.0 pass.old.images }
        ensures first { pass.new ≡ with_split image.0 pass.old }
        ensures pass { result ≡ split_from image.0 pass.old }
    {
        let mut first = mem::replace(&mut pass.badge, Badge::blank()).into_seat();
        let seat = self.lock.split(&mut first, image);
        pass.badge = first.into_badge();
        Pass {
            image,
            badge: seat.into_badge(),
        }
    }

    /// One ask of the pass's image at the object, in turn; the call may wait for the turns of others. Conditions: the
    /// pass is of this gate, and of an image. After every other answer than `Done` the object is as before, and the ask
    /// comes back.
    pub fn turn<R: Wait, H: Hook>(
        &self,
        rt: &R,
        pass: &mut Pass,
        ask: Ask,
        line: u32,
        after: u64,
        worker: u32,
        hook: &H,
    ) -> Turn
        requires gate { IsPassOf self.now pass.old }
        requires image { 0 < pass.old.image }
        ensures same { SamePlace pass.old pass.new }
        ensures tells { Tells O.ready_after O.reply_after (O.made self.now.start) pass.old.image pass.old.seen pass.old.own pass.new.seen pass.new.own ask line after result }
    {
        let mut seat = mem::replace(&mut pass.badge, Badge::blank()).into_seat();
        let turn = self
            .lock
            .round(rt, &mut seat, pass.image, ask, line, after, worker, hook);
        pass.badge = seat.into_badge();
        turn
    }

    /// The object, once all passes are back: the entries of each image are those of its pass, in order, and no other
    /// image has one; each pass has seen a beginning of the history. Condition: the passes are this gate's first one,
    /// and then one for each image of its list, in any order.
    pub fn close(self, mut passes: Vec<Pass>) -> O
        requires { AllOf self passes.items }
        ensures made { O.made result ≡ O.made self.start }
        ensures served { Served (O.ready_after (O.made result)) (O.reply_after (O.made result)) [] (O.history result) }
        ensures rises { Rises stamp_of (O.history result) }
        ensures lists { Gathers (O.history result) passes.items }
    {
        let Gate { lock, images: _ } = self;
        let first = passes.remove(0);
        let Pass { image: _, badge } = first;
        let mut seat = badge.into_seat();
        give_all(&lock, &mut seat, passes);
        lock.finish(seat)
    }
}

// Gives the images' seats back to the first one.
fn give_all<O: Object>(lock: &Lock<O>, first: &mut Seat<Option<O>, View>, mut passes: Vec<Pass>)
    requires first { (first.old.table_id ≡ lock.now.table.shared.table_id) × (first.old.id ≡ 0) }
    requires passes { Each (λ p. (p.gate ≡ lock.now.table.shared.table_id) × (0 < p.image)) passes.items }
    ensures first { (first.new.table_id ≡ first.old.table_id) × (first.new.id ≡ first.old.id) }
    ensures images { (first.new.me.0.images ≡ first.old.me.0.images) × (first.new.me.1 ≡ first.old.me.1) }
    ensures kept { first.new.me.0.kept ≡ map kept_known passes.items ++ first.old.me.0.kept }
{
    while let Some(pass) = passes.pop() {
        let Pass { image: _, badge } = pass;
        lock.give_back(first, badge.into_seat());
    }
}

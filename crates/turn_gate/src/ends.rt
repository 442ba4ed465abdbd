//! The lock's start, the seats of images, and its end.

ghost use Rattle.std.specs.Prelude.{◌≡◌, ℕ, ◌<◌, false, [], ◌∷◌, map, IfOk};
ghost use Rattle.turn_gate.specs.Gates.{IsLike, IsRecorded, NotIn, AreAmong, first_view, with_image, newcomer, gathered};
ghost use Rattle.turn_gate.specs.Closings.{Closes, kept_image};

use crate::lock::{Lock, OBJECT, out_of};
use crate::rule::{Cut, Gather, Numbered};
use crate::view::View;
use atomic_table::{Refused, Seat, Table};
use caf_base::place::ImageNo;
use caf_base::refusal::NoMemory;
use caf_events::object::Object;
use std::alloc::Global;
use std::marker::Brand;
use std::snapshot::Snapshot;

impl<O: Object> Lock<O> {
    /// A lock round an object without entries, and its first seat.
    pub(crate) fn open(
        alloc: Global,
        object: O,
    ) -> Result<(Lock<O>, Seat<Option<O>, View>), NoMemory>
    where
        O: Drop,
        requires { O.history object ≡ [] }
        ensures { IfOk result (λ r. (r.0.table.shared.key.value ≡ object) × (r.1.table_id ≡ r.0.table.shared.table_id) × (r.1.id ≡ 0) × (r.1.me ≡ (first_view, []))) }
    {
        let start = Snapshot::of(&object);
        let mut slots = Vec::new(alloc);
        slots.push(Some(object))?;
        match Table::new(alloc, &[0], slots, &start) {
            Ok((table, seat)) => Ok((Lock { table }, seat)),
            Err(refused) => {
                let Refused { slots: _ } = refused;
                Err(NoMemory)
            }
        }
    }

    // Split: a seat for an image.
    fn split_as<J: Numbered>(
        &self,
        first: &mut Seat<Option<O>, View>,
        image: ImageNo,
    ) -> Seat<Option<O>, View>
        requires seat { (first.old.table_id ≡ self.now.table.shared.table_id) × (first.old.id ≡ 0) }
        requires image { (image.0 ≡ J.number) × NotIn image.0 first.old.me.0.images }
        ensures first { (first.new.table_id ≡ first.old.table_id) × (first.new.id ≡ first.old.id) × (first.new.me ≡ (with_image image.0 first.old.me.0, first.old.me.1)) }
        ensures seat { (result.table_id ≡ first.old.table_id) × (result.me ≡ (newcomer image.0 first.old.me.0, [])) }
    {
        self.table.shared.split_seat::<Cut<J>>(first)
    }

    /// A seat for an image.
    pub(crate) fn split(
        &self,
        first: &mut Seat<Option<O>, View>,
        image: ImageNo,
    ) -> Seat<Option<O>, View>
        requires seat { (first.old.table_id ≡ self.now.table.shared.table_id) × (first.old.id ≡ 0) }
        requires image { NotIn image.0 first.old.me.0.images }
        ensures first { (first.new.table_id ≡ first.old.table_id) × (first.new.id ≡ first.old.id) × (first.new.me ≡ (with_image image.0 first.old.me.0, first.old.me.1)) }
        ensures seat { (result.table_id ≡ first.old.table_id) × (result.me ≡ (newcomer image.0 first.old.me.0, [])) }
    {
        self.split_as::<Brand>(first, image)
    }

    /// Join: an image's seat is given back.
    pub(crate) fn give_back(&self, first: &mut Seat<Option<O>, View>, other: Seat<Option<O>, View>)
        requires seat { (first.old.table_id ≡ self.now.table.shared.table_id) × (first.old.id ≡ 0) }
        requires other { (other.table_id ≡ self.now.table.shared.table_id) × (0 < other.me.0.image) × (other.me.0.turn ≡ false) × (other.me.1 ≡ []) }
        ensures first { (first.new.table_id ≡ first.old.table_id) × (first.new.id ≡ first.old.id) × (first.new.me ≡ (gathered first.old.me.0 other.me.0, first.old.me.1)) }
    {
        self.table.shared.join_seat::<Gather>(first, other);
    }

    /// The object, once each image's seat was given back.
    pub(crate) fn finish(self, first: Seat<Option<O>, View>) -> O
        requires seat { (first.table_id ≡ self.table.shared.table_id) × (first.id ≡ 0) }
        requires back { AreAmong first.me.0.images (map kept_image first.me.0.kept) }
        ensures { Closes O.history (IsLike O.made self.table.shared.key.value) (IsRecorded O.ready_after O.reply_after (O.made self.table.shared.key.value)) first.me.0.images first.me.0.kept result }
    {
        let Lock { table } = self;
        let mut closed = table.close_with(first);
        let object = out_of(closed.take(OBJECT));
        closed.free();
        object
    }
}

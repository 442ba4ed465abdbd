//! The first half of a step among all parts: what is due next is set aside.

ghost use Rattle.std.specs.Prelude.{◌≡◌, ◌<◌, ◌≤◌, ◌+◌, ◌-◌, ◌^◌, ◌↔◌, ℕ, suc, List, [], ◌∷◌, ◌++◌, length, IfOk, OnOk, OnErr, true, false, slice_index_or};
ghost use Rattle.caf_base.specs.declared.place.Place.TheVariants as places;
ghost use Rattle.core_runs.specs.Moments.{can_step};
ghost use Rattle.core_runs.specs.Moments.{rules};
ghost use Rattle.image_core.specs.Parts.{moment, AreNumbered, AreSound, IsPrepared, KeepsOthers, AnswersReady};
ghost use Rattle.image_core.specs.Prepared.{AsksAt, move_of};
ghost use Rattle.image_core.specs.declared.run.ImageRun.{ImageRun};

use crate::parts::{PartsOf, Ready};
use crate::step::{next_ask, prepare_alone, prepare_at};
use caf_base::place::{ImageNo, Place};
use caf_base::refusal::NoMemory;
use caf_events::object::Object;
use caf_events::walker::{Next, Walker};

impl<M: Walker, O: Object, B: Object> PartsOf<M, O, B> {
    // Sets aside the step that the image at a place makes by itself.
    fn set_aside_alone(&mut self, k: usize) -> Result<bool, NoMemory>
        requires image { k < length self.old.images.items }
        requires numbered { AreNumbered self.old.images.items }
        requires place { (r : ImageRun M) → r ≡ slice_index_or self.old.images.items k r → AsksAt places.Own (move_of M.Walker r) }
        ensures numbered { AreNumbered self.new.images.items }
        ensures same { moment M.Walker O.Object B.Object self.new ≡ moment M.Walker O.Object B.Object self.old }
        ensures answer { IfOk result (λ b. b ≡ can_step (rules M.Walker O.Object B.Object) (moment M.Walker O.Object B.Object self.old) (suc k)) }
        ensures prepared { IfOk result (λ b. b ≡ true → IsPrepared M.Walker O.Object B.Object self.new k) }
        ensures others { KeepsOthers M.Walker O.Object B.Object self.old k self.new }
    {
        let run = &mut self.images[k];
        let ask = next_ask(run)?;
        prepare_alone(run, ask)?;
        Ok(true)
    }

    // Sets aside the step of the image at a place, where the board is ready for it.
    fn set_aside_at_board(&mut self, k: usize) -> Result<bool, NoMemory>
        requires image { k < length self.old.images.items }
        requires numbered { AreNumbered self.old.images.items }
        requires place { (r : ImageRun M) → r ≡ slice_index_or self.old.images.items k r → AsksAt places.Board (move_of M.Walker r) }
        ensures numbered { AreNumbered self.new.images.items }
        ensures same { moment M.Walker O.Object B.Object self.new ≡ moment M.Walker O.Object B.Object self.old }
        ensures answer { IfOk result (λ b. b ≡ can_step (rules M.Walker O.Object B.Object) (moment M.Walker O.Object B.Object self.old) (suc k)) }
        ensures prepared { IfOk result (λ b. b ≡ true → IsPrepared M.Walker O.Object B.Object self.new k) }
        ensures others { KeepsOthers M.Walker O.Object B.Object self.old k self.new }
    {
        let run = &mut self.images[k];
        let ask = next_ask(run)?;
        prepare_at(run, &mut self.board, ask)
    }

    // Sets aside the step of the image at a place, where the run has the memory and it is ready.
    fn set_aside_at_memory(&mut self, k: usize, owner: ImageNo) -> Result<bool, NoMemory>
        requires image { k < length self.old.images.items }
        requires numbered { AreNumbered self.old.images.items }
        requires place { (r : ImageRun M) → r ≡ slice_index_or self.old.images.items k r → AsksAt (places.Memory owner) (move_of M.Walker r) }
        ensures numbered { AreNumbered self.new.images.items }
        ensures same { moment M.Walker O.Object B.Object self.new ≡ moment M.Walker O.Object B.Object self.old }
        ensures answer { IfOk result (λ b. b ≡ can_step (rules M.Walker O.Object B.Object) (moment M.Walker O.Object B.Object self.old) (suc k)) }
        ensures prepared { IfOk result (λ b. b ≡ true → IsPrepared M.Walker O.Object B.Object self.new k) }
        ensures others { KeepsOthers M.Walker O.Object B.Object self.old k self.new }
    {
        if owner.0 == 0 || owner.0 as usize > self.memories.len() {
            return Ok(false);
        }
        let at = (owner.0 - 1) as usize;
        let run = &mut self.images[k];
        let ask = next_ask(run)?;
        prepare_at(run, &mut self.memories[at], ask)
    }

    // Sets aside the step of the image at a place, where its object is ready for it.
    fn set_aside(&mut self, k: usize, place: Place) -> Result<bool, NoMemory>
        requires image { k < length self.old.images.items }
        requires numbered { AreNumbered self.old.images.items }
        requires place { (r : ImageRun M) → r ≡ slice_index_or self.old.images.items k r → AsksAt place (move_of M.Walker r) }
        ensures numbered { AreNumbered self.new.images.items }
        ensures same { moment M.Walker O.Object B.Object self.new ≡ moment M.Walker O.Object B.Object self.old }
        ensures answer { IfOk result (λ b. b ≡ can_step (rules M.Walker O.Object B.Object) (moment M.Walker O.Object B.Object self.old) (suc k)) }
        ensures prepared { IfOk result (λ b. b ≡ true → IsPrepared M.Walker O.Object B.Object self.new k) }
        ensures others { KeepsOthers M.Walker O.Object B.Object self.old k self.new }
    {
        match place {
            Place::Own => self.set_aside_alone(k),
            Place::Board => self.set_aside_at_board(k),
            Place::Memory(owner) => self.set_aside_at_memory(k, owner),
        }
    }

    /// Sets the next step of an image aside: `Can` where it can be made now, `NotYet` exactly where the image's next
    /// ask isn't ready, `Over` exactly where the image's machine is over: it stopped, failed or made an ending step. No
    /// step is made, also after want of memory.
    /// Another image that was prepared before stays so, but not where its step is at the same object: an object sets
    /// one step aside at a time, and that image is prepared anew before its step is made.
    pub fn prepare(&mut self, image: ImageNo) -> Result<Ready, NoMemory>
        requires image { (0 < image.0) × (image.0 ≤ length self.old.images.items) }
        requires sound { AreSound M.Walker O.Object B.Object self.old }
        ensures sound { AreSound M.Walker O.Object B.Object self.new }
        ensures same { moment M.Walker O.Object B.Object self.new ≡ moment M.Walker O.Object B.Object self.old }
        ensures answer { IfOk result (AnswersReady (rules M.Walker O.Object B.Object) (moment M.Walker O.Object B.Object self.old) image.0) }
        ensures prepared { IfOk result (λ a. a ≡ Ready.Can → IsPrepared M.Walker O.Object B.Object self.new (image.0 - 1)) }
        ensures others { KeepsOthers M.Walker O.Object B.Object self.old (image.0 - 1) self.new }
    {
        let k = (image.0 - 1) as usize;
        match self.images[k].machine.next() {
            Next::Ended => Ok(Ready::Over),
            Next::Ask(place) => {
                if self.set_aside(k, place)? {
                    Ok(Ready::Can)
                } else {
                    Ok(Ready::NotYet)
                }
            }
        }
    }
}

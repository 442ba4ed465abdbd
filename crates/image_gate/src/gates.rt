//! The gates of a run, which images on several threads use at the same time.

ghost use Rattle.std.specs.Prelude.{◌≡◌, ◌<◌, ◌↔◌, length, IsTrue};
ghost use Rattle.caf_events.specs.Asks.{place_of};
ghost use Rattle.image_gate.specs.Fabrics.{AreOf, IsPlaceOf, TurnsAt, TurnsAtMemory};

use crate::news::{News, stir_of};
use crate::passes::Passes;
use caf_base::hook::Hook;
use caf_base::place::Place;
use caf_events::ask::Ask;
use caf_events::object::Object;
use std::sync::Wait;
use turn_gate::gate::Gate;
use turn_gate::turn::Turn;

/// A gate round each memory of a run, by the number of its image, and one round the board, with counts of what moves
/// at them.
#[derive(Drop)]
pub struct Gates<O: Object, B: Object> {
    pub(crate) board: Gate<B>,
    pub(crate) memories: Vec<Gate<O>>,
    pub(crate) news: News,
}

impl<O: Object, B: Object> Gates<O, B> {
    /// What moves at these gates.
    pub fn news(&self) -> &News {
        &self.news
    }

    /// Whether a place is the board or one of the memories.
    pub fn serves(&self, place: Place) -> bool
        ensures { IsTrue result ↔ IsPlaceOf (length self.now.memories.items) place }
    {
        match place {
            Place::Board => true,
            Place::Memory(owner) => 0 < owner.0 && owner.0 as usize <= self.memories.len(),
            Place::Own => false,
        }
    }

    // One turn at the gate of the memory at a place, from 0.
    fn turn_at_memory<R: Wait, H: Hook>(
        &self,
        rt: &R,
        passes: &mut Passes,
        k: usize,
        ask: Ask,
        line: u32,
        after: u64,
        worker: u32,
        hook: &H,
    ) -> Turn
        requires passes { AreOf self.now.board self.now.memories.items passes.old.board.image passes.old.board passes.old.memories.items }
        requires image { 0 < passes.old.board.image }
        requires place { k < length self.now.memories.items }
        ensures board { passes.new.board ≡ passes.old.board }
        ensures memory { TurnsAtMemory O.Object self.now.memories.items k passes.old.memories.items passes.new.memories.items ask line after result }
    {
        self.memories[k].turn(rt, &mut passes.memories[k], ask, line, after, worker, hook)
    }

    // One turn at the gate that the ask names, which nobody is told of.
    fn turn_untold<R: Wait, H: Hook>(
        &self,
        rt: &R,
        passes: &mut Passes,
        ask: Ask,
        line: u32,
        after: u64,
        worker: u32,
        hook: &H,
    ) -> Turn
        requires passes { AreOf self.now.board self.now.memories.items passes.old.board.image passes.old.board passes.old.memories.items }
        requires image { 0 < passes.old.board.image }
        requires place { IsPlaceOf (length self.now.memories.items) (place_of ask) }
        ensures turns { TurnsAt O.Object B.Object self.now.board self.now.memories.items (place_of ask) passes.old passes.new ask line after result }
        ensures passes { AreOf self.now.board self.now.memories.items passes.old.board.image passes.new.board passes.new.memories.items }
    {
        match ask.place() {
            Place::Board => {
                self.board
                    .turn(rt, &mut passes.board, ask, line, after, worker, hook)
            }
            Place::Memory(owner) => {
                let k = (owner.0 - 1) as usize;
                self.turn_at_memory(rt, passes, k, ask, line, after, worker, hook)
            }
            Place::Own => unreachable!(),
        }
    }

    /// One turn at the gate that the ask names; the call may wait for the turns of others. A step is counted once the
    /// turn is over. Conditions: the passes are ones of these gates, and the ask names the board or one of the
    /// memories.
    pub fn turn<R: Wait, H: Hook>(
        &self,
        rt: &R,
        passes: &mut Passes,
        ask: Ask,
        line: u32,
        after: u64,
        worker: u32,
        hook: &H,
    ) -> Turn
        requires passes { AreOf self.now.board self.now.memories.items passes.old.board.image passes.old.board passes.old.memories.items }
        requires image { 0 < passes.old.board.image }
        requires place { IsPlaceOf (length self.now.memories.items) (place_of ask) }
        ensures turns { TurnsAt O.Object B.Object self.now.board self.now.memories.items (place_of ask) passes.old passes.new ask line after result }
        ensures passes { AreOf self.now.board self.now.memories.items passes.old.board.image passes.new.board passes.new.memories.items }
    {
        let place = ask.place();
        let stir = stir_of(&ask);
        let turn = self.turn_untold(rt, passes, ask, line, after, worker, hook);
        self.news.told(&turn, place, stir);
        turn
    }
}

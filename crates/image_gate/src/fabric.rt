//! The gates of a run from their beginning to their end.

ghost use Rattle.std.specs.Prelude.{◌≡◌, ◌<◌, ◌≤◌, ◌^◌, ℕ, suc, length, map, [], IfOk};
ghost use Rattle.trace_theory.specs.Entries.{Each};
ghost use Rattle.turn_gate.specs.Gates.{At};
ghost use Rattle.turn_gate.specs.Passes.{Opened};
ghost use Rattle.image_gate.specs.declared.passes.Passes.{Passes};
ghost use Rattle.image_gate.specs.Closings.{closing_of, with_back, board_column, column, EndsWith};
ghost use Rattle.image_gate.specs.Fabrics.{AreOf, IsNewFabric, images_to, desk_of};

use crate::closing::{begin_closing, finish_all, take_all};
use crate::gates::Gates;
use crate::news::News;
use crate::opening::{open_gates, split_all};
use crate::passes::Passes;
use caf_base::refusal::NoMemory;
use caf_events::object::Object;
use std::alloc::Global;
use turn_gate::gate::Gate;
use turn_gate::pass::Pass;

/// The gates of a run, with the first pass of each, from which the passes of all images were split.
#[derive(Drop)]
pub struct Fabric<O: Object, B: Object> {
    pub(crate) gates: Gates<O, B>,
    pub(crate) board_desk: Pass,
    pub(crate) desks: Vec<Pass>,
    ghost counted: { gates.board.images ≡ length gates.memories.items },
    ghost board_split: { board_desk ≡ desk_of (images_to (length gates.memories.items)) gates.board },
    ghost split: { desks.items ≡ map (desk_of (images_to (length gates.memories.items))) gates.memories.items },
}

impl<O: Object, B: Object> Fabric<O, B> {
    /// Gates round the memories of images 1 to their number and round the board, and for each of these images its
    /// passes. On refusal the objects are given up. Conditions: there are fewer than 2 ** 31 memories, and none of the
    /// objects has an entry.
    pub fn new(
        alloc: Global,
        memories: Vec<O>,
        board: B,
    ) -> Result<(Fabric<O, B>, Vec<Passes>), NoMemory>
    where
        O: Drop,
        B: Drop,
        requires few { length memories.items < 2 ^ 31 }
        requires board { B.history board ≡ [] }
        requires memories { Each (λ o. O.history o ≡ []) memories.items }
        ensures { IfOk result (λ r. IsNewFabric memories.items board r.0.gates.board r.0.gates.memories.items r.1.items) }
    {
        let news = News::new(alloc, memories.len())?;
        let count = memories.len() as u32;
        let (board, mut board_desk) = Gate::new(alloc, board, count)?;
        let (memories, mut desks) = open_gates(alloc, memories, count)?;
        let passes = split_all(alloc, &board, &mut board_desk, &memories, &mut desks)?;
        Ok((
            Fabric {
                gates: Gates {
                    board,
                    memories,
                    news,
                },
                board_desk,
                desks,
            },
            passes,
        ))
    }

    /// The gates, which images on several threads use at the same time.
    pub fn gates(&self) -> &Gates<O, B>
        ensures { result.now ≡ self.now.gates }
    {
        &self.gates
    }

    /// The memories and the board, once all passes are back: the object of each gate has in its history exactly the
    /// entries of the passes that came back to it, image by image. On refusal the fabric and the passes are given up.
    /// Condition: the passes are those of all images, in order.
    pub fn close(self, alloc: Global, passes: Vec<Passes>) -> Result<(Vec<O>, B), NoMemory>
    where
        O: Drop,
        B: Drop,
        requires count { length passes.items ≡ length self.gates.memories.items }
        requires passes { (k : ℕ) (p : Passes) → At passes.items k p → AreOf self.gates.board self.gates.memories.items (suc k) p.board p.memories.items }
        ensures board { IfOk result (λ r. EndsWith B.Object (with_back (board_column passes.items) (closing_of (images_to (length self.gates.memories.items)) self.gates.board)) r.1) }
        ensures count { IfOk result (λ r. length r.0.items ≡ length self.gates.memories.items) }
        ensures memories { IfOk result (λ r. (k : ℕ) (g : Opened O) (o : O) → At self.gates.memories.items k g → At r.0.items k o
            → EndsWith O.Object (with_back (column k passes.items) (closing_of (images_to (length self.gates.memories.items)) g)) o) }
    {
        let Fabric {
            gates,
            board_desk,
            desks,
        } = self;
        let Gates {
            board,
            memories,
            news,
        } = gates;
        drop(news);
        let mut board = board.closing(board_desk);
        let mut closings = begin_closing(alloc, memories, desks)?;
        take_all(&mut board, &mut closings, passes);
        let memories = finish_all(alloc, closings)?;
        Ok((memories, board.finish()))
    }
}

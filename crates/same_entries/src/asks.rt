//! Whether two asks are the same.

ghost use Rattle.std.specs.Prelude.{◌≡◌, Decides};

use crate::board_asks::same_at_board;
use crate::memory_asks::same_at_memory;
use crate::own_asks::same_own;
use caf_base::place::Place;
use caf_events::ask::Ask;

/// Whether two asks are the same, in every part.
pub fn same_ask(a: &Ask, b: &Ask) -> bool
    ensures { Decides result (a.now ≡ b.now) }
{
    match b.place() {
        Place::Memory(at) => same_at_memory(a, b, at),
        Place::Board => same_at_board(a, b),
        Place::Own => same_own(a, b),
    }
}

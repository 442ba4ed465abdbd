//! Whether the last step at the memory leaves every other image's asks as ready as they were.

ghost use Rattle.std.specs.Prelude.{◌≡◌, IsTrue};
ghost use Rattle.caf_events.specs.Events.{words_by};

use caf_events::exchange::Exchange;

// The recorded words of a read or a write of one cell. No other step at a memory has so many.
const CELL_WORDS: u32 = 5;

// Whether the step is known to be a read or a write of one cell that found it, which is seen without its ask and its
// reply. It changes no lock variable, no event variable and no allocation, and asks wait for these alone.
pub(crate) fn is_inert(told: &Exchange) -> bool
    ensures { IsTrue result → words_by told.now.ask told.now.reply ≡ 5 }
{
    match told.plain_words() {
        Some(words) => words == CELL_WORDS,
        None => false,
    }
}

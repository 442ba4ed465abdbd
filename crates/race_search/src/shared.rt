//! The least cell that two entries share.

ghost use Rattle.std.specs.Prelude.{◌≡◌, ℕ, true, cond, MatchOption};
ghost use Rattle.race_watch.specs.ActParts.{as_cell};
ghost use Rattle.race_watch.specs.Rows.{is_in};
ghost use Rattle.race_watch.specs.Marked.{Touching, TouchesAll};
ghost use Rattle.race_search.specs.Partners.{LeastIn, lesser_of, may_meet, Meet, LeastShared};

use caf_events::event::Entry;
use race_watch::act::CellName;
use race_watch::touch::Touch;

// Whether the number is one of these.
fn contains(numbers: &[u32], number: u32) -> bool
    ensures { result ≡ is_in number numbers.now }
{
    for other in numbers {
        if number == *other {
            return true;
        }
    }
    false
}

// The lesser of it and the number, where this is to be taken.
fn lesser(least: Option<u32>, number: u32, is_taken: bool) -> Option<u32>
    ensures { result ≡ cond is_taken (lesser_of least number) least }
{
    match least {
        _ if !is_taken => least,
        Some(other) => Some(other.min(number)),
        None => Some(number),
    }
}

// The least number that is in both lists.
fn least_in(xs: &[u32], ys: &[u32]) -> Option<u32>
    ensures { LeastIn xs.now ys.now result }
{
    let mut least = None;
    for x in xs {
        least = lesser(least, *x, contains(ys, *x));
    }
    least
}

// Whether the two touch cells of one coarray of one memory, and meet.
fn may_meet(other: &Touch, touch: &Touch) -> bool
    ensures { result ≡ may_meet other.now touch.now }
{
    other.owner.0 == touch.owner.0
        && other.coarray == touch.coarray
        && other.class.meets(touch.class)
}

// The cell of what is touched at this offset.
fn cell_at(touch: &Touch, offset: u32) -> CellName
    ensures { as_cell result ≡ record { owner = touch.now.owner.0; coarray = touch.now.coarray; offset = offset } }
{
    CellName {
        owner: touch.owner,
        coarray: touch.coarray,
        offset,
    }
}

// The least cell that x shares with e, where their classes meet.
fn meeting(
    _n: u32,
    _b: &[Entry],
    _x: &Entry,
    other: &Touch,
    _g: &[Entry],
    _e: &Entry,
    touch: &Touch,
) -> Option<CellName>
    requires there { Touching _n _b.now _x.now other.now }
    requires here { Touching _n _g.now _e.now touch.now }
    ensures { MatchOption result (Meet _b.now _x.now _g.now _e.now → ⊥) (λ c. Meet _b.now _x.now _g.now _e.now × LeastShared _b.now _x.now _g.now _e.now (as_cell c)) }
{
    if !may_meet(other, touch) {
        return None;
    }
    match least_in(other.cells.as_slice(), touch.cells.as_slice()) {
        Some(offset) => Some(cell_at(touch, offset)),
        None => None,
    }
}

/// The least cell that x shares with e, where their classes meet.
pub fn shared(
    n: u32,
    b: &[Entry],
    x: &Entry,
    other: &Option<Touch>,
    g: &[Entry],
    e: &Entry,
    touch: &Touch,
) -> Option<CellName>
    requires there { TouchesAll n b.now x.now other.now }
    requires here { Touching n g.now e.now touch.now }
    ensures { MatchOption result (Meet b.now x.now g.now e.now → ⊥) (λ c. Meet b.now x.now g.now e.now × LeastShared b.now x.now g.now e.now (as_cell c)) }
{
    match other {
        Some(other) => meeting(n, b, x, other, g, e, touch),
        None => None,
    }
}

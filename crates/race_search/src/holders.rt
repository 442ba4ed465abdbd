//! The image that acquired a lock last, and the one that entered a CRITICAL construct last.

ghost use Rattle.std.specs.Prelude.{◌≡◌, [], IfOk};
ghost use Rattle.order_theory.specs.Races.{same_cell};
ghost use Rattle.order_axioms.specs.Views.{got_by, entered_by, last_holder, last_inside};
ghost use Rattle.race_watch.specs.ActParts.{as_act, as_cell};
ghost use Rattle.race_search.specs.Spoken.{only};

use caf_base::place::ImageNo;
use caf_base::refusal::NoMemory;
use caf_events::event::Entry;
use race_watch::act::{Act, CellName};
use race_watch::recorder::act_of;
use std::alloc::Global;

// Whether the two are names of one cell.
fn is_same(c: CellName, d: CellName) -> bool
    ensures { result ≡ same_cell (as_cell c) (as_cell d) }
{
    c.owner.0 == d.owner.0 && c.coarray == d.coarray && c.offset == d.offset
}

// Who holds the lock after an act of this image.
fn got_by(cell: CellName, image: ImageNo, act: &Act, held: Option<u32>) -> Option<u32>
    ensures { only result ≡ got_by (as_cell cell) image.0 (as_act act.now) (only held) }
{
    match act {
        Act::Gets { cell: other } if is_same(cell, *other) => Some(image.0),
        _ => held,
    }
}

// Who was last to enter the construct, after an act of this image.
fn entered_by(construct: u32, image: ImageNo, act: &Act, inside: Option<u32>) -> Option<u32>
    ensures { only result ≡ entered_by construct image.0 (as_act act.now) (only inside) }
{
    match act {
        Act::Enters { construct: other } if construct == *other => Some(image.0),
        _ => inside,
    }
}

/// The image that acquired the lock last, if any has.
pub fn last_holder(alloc: Global, cell: CellName, before: &[Entry]) -> Result<Option<u32>, NoMemory>
    ensures { IfOk result (λ o. only o ≡ last_holder (as_cell cell) [] before.now) }
{
    let mut held = None;
    for e in before {
        let act = act_of(alloc, e)?;
        held = got_by(cell, e.image, &act, held);
        drop(act);
    }
    Ok(held)
}

/// The image that entered the CRITICAL construct last, if any has.
pub fn last_inside(alloc: Global, construct: u32, before: &[Entry]) -> Result<Option<u32>, NoMemory>
    ensures { IfOk result (λ o. only o ≡ last_inside construct [] before.now) }
{
    let mut inside = None;
    for e in before {
        let act = act_of(alloc, e)?;
        inside = entered_by(construct, e.image, &act, inside);
        drop(act);
    }
    Ok(inside)
}

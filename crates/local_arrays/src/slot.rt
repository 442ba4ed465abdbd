//! Where an array of a frame stands among those of all frames.

ghost use Rattle.std.specs.Prelude.{IfSome, IfNone, ◌≤◌};
ghost use Rattle.image_code.specs.Table.{scope_of};
ghost use Rattle.local_arrays.specs.Frames.{SlotIs, NoSlot};

use image_code::step::Scope;

/// The place of an array where the frame in front begins at `base`, the main program has `main` arrays, and there are
/// `len` in all.
#[inline(always)]
pub(crate) fn slot(scope: Scope, x: u32, base: usize, main: usize, len: usize) -> Option<usize>
    requires { base ≤ len }
    ensures some { IfSome result (λ k. SlotIs (scope_of scope) x base main len k) }
    ensures none { IfNone result (NoSlot (scope_of scope) x base main len) }
{
    match scope {
        Scope::Here => {
            if (x as usize) < len - base {
                Some(base + x as usize)
            } else {
                None
            }
        }
        Scope::Host => {
            if (x as usize) < main {
                Some(x as usize)
            } else {
                None
            }
        }
    }
}

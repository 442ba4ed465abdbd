//! How the elements of an array are found at once.

ghost use Rattle.std.specs.Prelude.{Some};
ghost use Rattle.local_arrays.specs.Rows.{AreBounds, IsReach, IsWell};

use crate::bounds::Bounds;
use array_places::bounds::cells_between;

/// How the elements of an array are found at once: by one subscript, or by a row and a column, between these bounds,
/// where the array has a cell for each and 64 bits hold each place; of any other the ordinary way tells.
#[derive(Clone, Copy)]
pub enum Reach {
    One {
        lower: i64,
        upper: i64,
    },
    Two {
        low: i64,
        high: i64,
        left: i64,
        right: i64,
    },
    Other,
}

/// How the elements of an array with these bounds, or none, and so many cells are found at once.
pub(crate) fn reach_of(bounds: &Option<Bounds>, size: usize) -> Reach
    requires { IsWell bounds.now size }
    ensures { IsReach result bounds.now size }
{
    match bounds {
        None => Reach::Other,
        Some(bounds) => reach_between(bounds, size),
    }
}

/// How the elements of an array with these bounds and so many cells are found at once.
fn reach_between(bounds: &Bounds, size: usize) -> Reach
    requires { AreBounds bounds.now }
    ensures { IsReach result (Some bounds.now) size }
{
    let numbers = bounds.as_slice();
    if !bounds.has_places || cells_between(numbers) != size as u128 {
        return Reach::Other;
    }
    match numbers {
        [lower, upper] => Reach::One {
            lower: *lower,
            upper: *upper,
        },
        [low, high, left, right] => Reach::Two {
            low: *low,
            high: *high,
            left: *left,
            right: *right,
        },
        _ => Reach::Other,
    }
}

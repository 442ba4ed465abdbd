//! Plans of an ALLOCATE statement (ISO/IEC 1539-1:2018, 9.7.1): whether all is well, and the cells that would be in
//! use.

ghost use Rattle.std.specs.Prelude.{◌≡◌, ◌≤◌, length};
ghost use Rattle.coarray_types.specs.Places.{size_of};
ghost use Rattle.image_acts.specs.Frames.{pairs_in};
ghost use Rattle.image_acts.specs.Operate.Allocating.{bounds_size};
ghost use Rattle.coarray_tables.specs.Owns.{may_be_made, own_at, sum_of_cells};

use crate::coarrays::Coarrays;
use crate::cobounds::{are_cobounds, are_of_kind_4};
use array_places::bounds::cells_between;
use array_places::place::natural;

/// One cell more than an image may have.
const TOO_MANY: u128 = 65_537;

impl Coarrays {
    /// Whether a coarray may be allocated with the bounds of its rank and cobounds behind them: it isn't allocated
    /// here, all are numbers of kind 4, and no upper cobound is below its lower one.
    pub fn may_be_made(&self, coarray: u32, rank: u32, numbers: &[i64]) -> bool
        requires { bounds_size rank ≤ length numbers.now }
        ensures { result ≡ may_be_made (own_at self.now.coarrays coarray) rank numbers.now }
    {
        !self.is_there(coarray)
            && are_of_kind_4(numbers)
            && are_cobounds(&numbers[2 * rank as usize..])
    }
}

/// The sum of cells of a plan with an array of these bounds more; one cell too many stands for any number that is too
/// great.
pub fn sum_with(sum: &i64, bounds: &[i64]) -> i64
    ensures { result ≡ sum_of_cells sum.now (size_of (pairs_in bounds.now)) }
{
    cells_between(bounds)
        .saturating_add(u128::from(natural(sum)))
        .min(TOO_MANY) as i64
}

/// The sum of cells of a plan without a further array.
pub fn sum_alone(sum: &i64) -> i64
    ensures { result ≡ sum_of_cells sum.now 0 }
{
    u128::from(natural(sum)).min(TOO_MANY) as i64
}

//! Array values of image indices.

ghost use Rattle.std.specs.Prelude.{◌≡◌, ◌<◌, ◌≤◌, ◌+◌, ◌-◌, ◌∷◌, pos, length, map, min, take};
ghost use Rattle.image_acts.specs.Core.{elements_in};
ghost use Rattle.image_acts.specs.Teams.{counted_from};
ghost use Rattle.image_state.specs.Acting.{with_core};
ghost use Rattle.array_values.specs.Values.{row_of};
ghost use Rattle.image_state.specs.Arrays.{with_arrays};

use crate::state::{ImageState, MOST_ELEMENTS};

impl ImageState {
    /// For how many elements there is room.
    pub fn spare(&self) -> usize
        ensures { result + elements_in self.now.core.arrays ≡ 524288 }
    {
        MOST_ELEMENTS - self.arrays.total()
    }

    /// Begins an array value with the numbers from 1 to n.
    pub fn begin_counted(&mut self, n: u32)
        requires place { length self.old.core.arrays < self.old.rooms.arrays }
        requires room { elements_in self.old.core.arrays + n ≤ 524288 }
        ensures { self.new ≡ with_core self.old (with_arrays self.old.core (row_of (counted_from 1 n) ∷ self.old.core.arrays)) }
    {
        self.arrays.begin_counted(n);
    }

    /// Begins an array value with these indices, as far as there is room.
    #[tactic(auto, using(crate::proofs::IndexLaws::take_kept, crate::proofs::IndexLaws::take_within))]
    pub fn begin_indices(&mut self, indices: &[u32])
        requires { length self.old.core.arrays < self.old.rooms.arrays }
        ensures { self.new ≡ with_core self.old (with_arrays self.old.core (row_of (take (524288 - elements_in self.old.core.arrays) (map (λ n. pos n) indices.now)) ∷ self.old.core.arrays)) }
    {
        let kept = lesser(indices.len(), self.spare());
        self.arrays.begin_row(&indices[..kept]);
    }
}

/// The lesser of two numbers.
pub(crate) fn lesser(n: usize, m: usize) -> usize
    ensures { result ≡ min n m }
{
    if n < m { n } else { m }
}

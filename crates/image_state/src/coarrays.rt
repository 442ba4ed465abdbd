//! The coarrays of this image.

ghost use Rattle.std.specs.Prelude.{◌≡◌, ◌<◌, ◌≤◌, ◌+◌, length, reverse, take, drop, Some, None, IsTrue, IsFalse};
ghost use Rattle.image_acts.specs.Core.{elements_in, with_array};
ghost use Rattle.image_acts.specs.Operate.Allocating.{bounds_size, cobounds_size};
ghost use Rattle.image_acts.specs.Teams.{current_team};
ghost use Rattle.array_values.specs.Values.{row_of};
ghost use Rattle.coarray_tables.specs.Owns.{own_at, freed, noted};
ghost use Rattle.coarray_tables.specs.Steps.{owned_by, with_owned};
ghost use Rattle.image_state.specs.Acting.{with_core};
ghost use Rattle.image_state.specs.Coarrays.{own_bounds};

use crate::numbers::{begin_row, numbers_beneath};
use crate::state::ImageState;
use array_values::extents::Extents;
use coarray_tables::coarrays::Coarrays;

impl ImageState {
    /// The coarrays of this image.
    pub fn coarrays(&self) -> &Coarrays
        ensures { result.now ≡ owned_by self.now.core }
    {
        &self.coarrays
    }

    /// How many coarray cells are in use.
    pub fn coarray_cells(&self) -> u64
        ensures is { result ≡ self.now.core.coarray_cells }
        ensures small { result ≤ 65536 }
    {
        self.coarrays.cells()
    }

    /// The number of this image.
    pub fn me(&self) -> u32
        ensures { result ≡ self.now.core.me }
    {
        self.teams.me()
    }

    /// Notes that a coarray was allocated in the current team, with the bounds of its rank and the cobounds of its
    /// corank that stand beneath so many numbers. Where there is no room for it nothing is noted, and the answer is
    /// false.
    pub fn note_coarray(&mut self, coarray: u32, rank: u32, corank: u32, depth: usize) -> bool
        requires { bounds_size rank + cobounds_size corank ≤ length (drop depth self.old.core.values) }
        ensures made { IsTrue result → noted (owned_by self.old.core) coarray rank corank (reverse (take (bounds_size rank + cobounds_size corank) (drop depth self.old.core.values))) (current_team self.old.core) ≡ Some (owned_by self.new.core) }
        ensures changed { self.new ≡ with_core self.old (with_owned (owned_by self.new.core) self.old.core) }
        ensures not { IsFalse result → (noted (owned_by self.old.core) coarray rank corank (reverse (take (bounds_size rank + cobounds_size corank) (drop depth self.old.core.values))) (current_team self.old.core) ≡ None) × (self.new ≡ self.old) }
    {
        let n = 2 * rank as usize + (2 * corank as usize).saturating_sub(1);
        let team = self.teams.current();
        match numbers_beneath(&self.values, depth, n) {
            None => false,
            Some(numbers) => self
                .coarrays
                .note_made(coarray, rank, corank, numbers, team),
        }
    }

    /// Notes that a coarray was deallocated. Where it isn't allocated here, nothing changes, and the answer is false.
    pub fn free_coarray(&mut self, coarray: u32) -> bool
        ensures freed { IsTrue result → freed (owned_by self.old.core) coarray ≡ Some (owned_by self.new.core) }
        ensures changed { self.new ≡ with_core self.old (with_owned (owned_by self.new.core) self.old.core) }
        ensures not { IsFalse result → (freed (owned_by self.old.core) coarray ≡ None) × (self.new ≡ self.old) }
    {
        self.coarrays.note_freed(coarray)
    }

    /// Begins an array value with the bounds of a coarray, a lower and an upper one for each dimension.
    pub fn begin_own_bounds(&mut self, coarray: u32)
        requires place { length self.old.core.arrays < self.old.rooms.arrays }
        requires room { elements_in self.old.core.arrays + length (own_bounds (own_at self.old.core.coarrays coarray)) ≤ 524288 }
        ensures { self.new ≡ with_core self.old (with_array (row_of (own_bounds (own_at self.old.core.coarrays coarray))) self.old.core) }
    {
        match self.coarrays.bounds(coarray) {
            None => self.arrays.begin(Extents::One(0)),
            Some(bounds) => begin_row(&mut self.arrays, bounds),
        }
    }
}

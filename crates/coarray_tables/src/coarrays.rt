//! The coarrays of one image.

ghost use Rattle.std.specs.Prelude.{◌≡◌, ◌+◌, ◌*◌, ◌^◌, ◌<◌, ◌≤◌, take, drop, length, is_some, option_copied, IsTrue, IsFalse, Some, None};
ghost use Rattle.std.specs.Option.{option_map};
ghost use Rattle.image_acts.specs.Frames.{pairs_in, pairs_numbers};
ghost use Rattle.image_acts.specs.Operate.Allocating.{bounds_size, cobounds_size};
ghost use Rattle.image_acts.specs.Operate.Asking.{has_cell};
ghost use Rattle.coarray_tables.specs.Steps.{made_team};
ghost use Rattle.coarray_tables.specs.Owns.{own_at, own_of, owns_of, is_of_team, noted, noted_in, freed};

use crate::few::Few;
use crate::shape::{Shape, cells_with, cells_without, is_within, put, shape_at, whole};
use std::marker::Model;

/// The coarrays of one image, in declared order, and how many coarray cells are in use.
#[derive(Drop)]
pub struct Coarrays {
    shapes: Vec<Option<Shape>>,
    cells: u64,
}

impl Model for Coarrays {
    ghost use Rattle.coarray_tables.specs.Owns.{Owned, owns_of};

    ghost Value = { Owned };

    ghost view = { λ s. record { coarrays = owns_of s.shapes.items; cells = s.cells } };
}

impl Coarrays {
    /// These coarrays, with so many cells.
    pub(crate) fn of(shapes: Vec<Option<Shape>>, cells: u64) -> Coarrays
        ensures { result ≡ record { coarrays = owns_of shapes.items; cells = cells } }
    {
        Coarrays { shapes, cells }
    }

    /// How many coarray cells are in use.
    pub fn cells(&self) -> u64
        ensures { result ≡ self.now.cells }
    {
        self.cells
    }

    /// A coarray, where it is allocated here.
    pub(crate) fn shape(&self, coarray: u32) -> Option<&Shape>
        ensures { option_map own_of (option_copied result) ≡ own_at self.now.coarrays coarray }
    {
        shape_at(&self.shapes, coarray)
    }

    /// Whether a coarray is allocated here.
    pub fn is_there(&self, coarray: u32) -> bool
        ensures { result ≡ is_some (own_at self.now.coarrays coarray) }
    {
        self.shape(coarray).is_some()
    }

    /// Whether it is, and has a cell at this offset.
    pub fn has_cell(&self, coarray: u32, offset: u32) -> bool
        ensures { result ≡ has_cell (own_at self.now.coarrays coarray) offset }
    {
        match self.shape(coarray) {
            Some(shape) => is_within(shape.bounds.as_slice(), offset),
            None => false,
        }
    }

    /// The team in which it was allocated.
    pub fn team_of(&self, coarray: u32) -> Option<u64>
        ensures { result ≡ option_map (λ o. o.team) (own_at self.now.coarrays coarray) }
    {
        match self.shape(coarray) {
            Some(shape) => Some(shape.team),
            None => None,
        }
    }

    /// The same, 0 where it isn't allocated here.
    pub fn made_team(&self, coarray: u32) -> u64
        ensures { result ≡ made_team (own_at self.now.coarrays coarray) }
    {
        self.team_of(coarray).unwrap_or(0)
    }

    /// Whether it was allocated in this team.
    pub fn is_of_team(&self, coarray: u32, team: u64) -> bool
        ensures { result ≡ is_of_team (own_at self.now.coarrays coarray) team }
    {
        match self.shape(coarray) {
            Some(shape) => shape.team == team,
            None => false,
        }
    }

    /// Its bounds, a lower and an upper one for each dimension.
    pub fn bounds(&self, coarray: u32) -> Option<&[i64]>
        ensures { option_map (λ b. b.now) result ≡ option_map (λ o. pairs_numbers o.bounds) (own_at self.now.coarrays coarray) }
    {
        match self.shape(coarray) {
            Some(shape) => Some(whole(shape.bounds.as_slice())),
            None => None,
        }
    }

    /// Notes that a coarray was allocated in this team, with the bounds of its rank and the cobounds of its corank,
    /// whether or not it was before. Where the rank or the corank is above 3, or more than 65,536 coarray cells would
    /// be in use, nothing is noted, and the answer is false: the run fault Room.
    pub fn note_made(
        &mut self,
        coarray: u32,
        rank: u32,
        corank: u32,
        numbers: &[i64],
        team: u64,
    ) -> bool
        requires { length numbers.now ≡ bounds_size rank + cobounds_size corank }
        ensures made { IsTrue result → noted self.old coarray rank corank numbers.now team ≡ Some self.new }
        ensures not { IsFalse result → (noted self.old coarray rank corank numbers.now team ≡ None) × (self.new ≡ self.old) }
    {
        if rank > 3 || corank > 3 {
            return false;
        }
        let (bounds, cobounds) = numbers.split_at(2 * rank as usize);
        self.note(coarray, bounds, cobounds, team)
    }

    /// The same, with few bounds and cobounds.
    fn note(&mut self, coarray: u32, bounds: &[i64], cobounds: &[i64], team: u64) -> bool
        requires bounds { length bounds.now ≤ 6 }
        requires cobounds { length cobounds.now ≤ 6 }
        ensures made { IsTrue result → noted_in self.old coarray (pairs_in bounds.now) cobounds.now team ≡ Some self.new }
        ensures not { IsFalse result → (noted_in self.old coarray (pairs_in bounds.now) cobounds.now team ≡ None) × (self.new ≡ self.old) }
    {
        let Some(cells) = cells_with(self.cells, bounds) else {
            return false;
        };
        let shape = Shape {
            bounds: Few::from_slice(bounds),
            cobounds: Few::from_slice(cobounds),
            team,
        };
        put(&mut self.shapes, coarray, Some(shape));
        self.cells = cells;
        true
    }

    /// Notes that a coarray was deallocated. Where it isn't allocated here, nothing changes, and the answer is false.
    pub fn note_freed(&mut self, coarray: u32) -> bool
        ensures freed { IsTrue result → freed self.old coarray ≡ Some self.new }
        ensures not { IsFalse result → (freed self.old coarray ≡ None) × (self.new ≡ self.old) }
    {
        let Some(shape) = shape_at(&self.shapes, coarray) else {
            return false;
        };
        let cells = cells_without(self.cells, shape.bounds.as_slice());
        put(&mut self.shapes, coarray, None);
        self.cells = cells;
        true
    }
}

//! What stands beside the steps of code.

ghost use Rattle.std.specs.Prelude.{◌≡◌};
ghost use Rattle.image_code.specs.Code.{no_tables};

use caf_base::listing::{Listing, Text};
use caf_base::value::Kind;
use std::alloc::Global;

/// What a cell of a coarray holds.
#[derive(Clone, Copy)]
pub enum CellType {
    /// An integer or a logical value.
    Value(Kind),
    /// EVENT_TYPE (ISO/IEC 1539-1:2018, 16.10.2.10)
    Event,
    /// LOCK_TYPE (16.10.2.19)
    Lock,
}

/// A declared coarray. A static one is there from the start, with these bounds, cobounds and first values in array
/// element order, truth values as 1 and 0; of an allocatable one the four are empty, and it has no cells.
#[derive(Drop)]
pub struct Coarray {
    pub of_type: CellType,
    pub is_allocatable: bool,
    pub cells: u32,
    pub bounds: Listing<(i64, i64)>,
    pub lower_cobounds: Listing<i64>,
    pub coextents: Listing<i64>,
    pub first: Listing<i64>,
}

/// An array of the main program that is there from the start: lower and upper bounds, and its elements in array element
/// order, truth values as 1 and 0.
#[derive(Drop)]
pub struct FirstArray {
    pub bounds: Listing<(i64, i64)>,
    pub elements: Listing<i64>,
}

/// How the main program's frame begins: its scalars with hidden cells behind them, its arrays with those of constants
/// behind them, and how many local cells it takes.
#[derive(Drop)]
pub struct MainFrame {
    pub cells: Listing<i64>,
    pub arrays: Listing<Option<FirstArray>>,
    pub need: u32,
}

/// Coarrays in declared order; literals and formats; and how the main program's frame begins.
#[derive(Drop)]
pub struct Tables {
    pub coarrays: Listing<Coarray>,
    pub texts: Listing<Text>,
    pub main: MainFrame,
}

impl Tables {
    /// Empty tables.
    pub fn new(alloc: Global) -> Tables
        ensures { result ≡ no_tables }
    {
        Tables {
            coarrays: Listing::new(alloc),
            texts: Listing::new(alloc),
            main: MainFrame {
                cells: Listing::new(alloc),
                arrays: Listing::new(alloc),
                need: 0,
            },
        }
    }
}

//! The numbers of coarrays by their names.

ghost use Rattle.std.specs.Prelude.{◌≡◌, ◌<◌, ◌^◌, IfOk, Some, ℕ, slice_get};
ghost use Rattle.trace_forms.specs.Names.{AreNames};

use caf_base::listing::Text;
use caf_base::refusal::NoMemory;
use indexmap::IndexSet;
use std::alloc::Global;
use std::marker::Model;

/// The names of coarrays in declared order, none of them twice, found in a time that doesn't grow with their number.
#[derive(Drop)]
pub struct NameTable {
    set: IndexSet<Vec<u8>>,
}

impl Model for NameTable {
    ghost use Rattle.std.specs.Prelude.{List, ℕ, map};

    ghost Value = { List (List ℕ) };

    ghost view = { λ t. map (λ v. v.items) t.set.keys };
}

impl NameTable {
    /// The table of these names.
    pub fn of(alloc: Global, names: &[Text]) -> Result<NameTable, NoMemory>
        requires { AreNames names.now }
        ensures { IfOk result (λ t. t ≡ names.now) }
    {
        let mut set = IndexSet::new(alloc);
        for name in names {
            let bytes = Vec::from_slice(alloc, name.as_slice())?;
            set.insert(bytes)?;
        }
        Ok(NameTable { set })
    }

    /// The number of the coarray with a name; of another text the answer may be any.
    pub(crate) fn number_of(&self, name: &[u8]) -> u32
        requires { AreNames self.now }
        ensures { (coarray : ℕ) → coarray < 2 ^ 32 → slice_get self.now coarray ≡ Some name.now → result ≡ coarray }
    {
        match self.set.get_index_of(name) {
            Some(place) if place < 4_294_967_296 => place as u32,
            _ => u32::MAX,
        }
    }
}

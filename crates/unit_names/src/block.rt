//! Blocks of names, each with what USE gives under it.

ghost use Rattle.std.specs.Prelude.{◌≡◌, ◌+◌, ℕ, List, [], cond, false, bytes_eq, length, OnOk};
ghost use Rattle.rule_definitions.specs.Names.{is_among};
ghost use Rattle.module_units.specs.Visible.{nothing};
ghost use Rattle.std.specs.Option.{option_copied};
ghost use Rattle.unit_names.specs.Found.{found, found_in, joined as joined_seen, under, texts};

use crate::entity::{Found, joined};
use caf_base::refusal::NoMemory;
use indexmap::IndexMap;
use std::alloc::Global;
use std::marker::Model;

/// Names with what USE gives under them. In a contract it is a table, of which the first row of a name holds.
#[derive(Drop)]
pub struct Block<'a> {
    names: Vec<&'a [u8]>,
    table: IndexMap<Vec<u8>, Found<'a>>,
}

impl<'a> Model for Block<'a> {
    ghost use Rattle.std.specs.Prelude.{◌≡◌, ℕ, List, false, map};
    ghost use Rattle.rule_definitions.specs.Names.{is_among};
    ghost use Rattle.module_units.specs.Visible.{nothing};
    ghost use Rattle.unit_names.specs.Found.{Row, row, under, texts};

    ghost Value = { List Row };

    ghost view = { λ b. map row b.table.entries };

    ghost invariant = { λ b. (n : List ℕ) → is_among (texts b.names.items) n ≡ false → under (map row b.table.entries) n ≡ nothing };
}

impl<'a> Block<'a> {
    /// No names.
    pub fn new(alloc: Global) -> Block<'a>
        ensures { result ≡ [] }
    {
        Block {
            names: Vec::new(alloc),
            table: IndexMap::new(alloc),
        }
    }

    /// What USE gives under a name.
    pub fn find(&self, name: &[u8]) -> Found<'a>
        ensures { found result ≡ under self.now name.now }
    {
        given(self.table.get(name))
    }

    /// The names, under no other of which anything is given.
    pub fn names(&self) -> &[&'a [u8]]
        ensures { (n : List ℕ) → is_among (texts result.now) n ≡ false → under self.now n ≡ nothing }
    {
        self.names.as_slice()
    }

    /// What is given under a name besides.
    pub fn add(&mut self, alloc: Global, name: &'a [u8], more: Found<'a>) -> Result<(), NoMemory>
        ensures { OnOk result ((n : List ℕ) → under self.new n ≡ cond (bytes_eq name.now n) (joined_seen (under self.old n) (found more.entry)) (under self.old n)) }
    {
        let all = joined(self.find(name), more);
        let key = Vec::from_slice(alloc, name)?;
        self.names.push(name)?;
        self.table.insert(key, all)?;
        Ok(())
    }
}

// What a map has under a name.
fn given<'a>(here: Option<&Found<'a>>) -> Found<'a>
    ensures { found result ≡ found_in (option_copied here.entry) }
{
    match here {
        Some(here) => *here,
        None => Found::Nothing,
    }
}

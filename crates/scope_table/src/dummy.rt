//! The names of dummy arguments.

ghost use Rattle.std.specs.Prelude.{◌≡◌, IfOk};
ghost use Rattle.rule_definitions.specs.Names.{is_among};
ghost use Rattle.scope_table.specs.Pending.{name_texts};

use crate::names::Names;
use crate::pending::add_names;
use caf_base::refusal::NoMemory;
use fortran_tree::name::Name;
use std::alloc::Global;
use std::marker::Model;

/// The names of the dummy arguments of a procedure, in order.
#[derive(Drop)]
pub struct Dummies<'a> {
    listed: &'a [Name],
    names: Names,
}

impl<'a> Model for Dummies<'a> {
    ghost use Rattle.std.specs.Prelude.{◌≡◌, List, ℕ};
    ghost use Rattle.rule_definitions.specs.Names.{is_among};
    ghost use Rattle.scope_table.specs.Pending.{name_texts};

    ghost Value = { List (List ℕ) };

    ghost view = { λ d. name_texts d.listed.now };

    ghost invariant = { λ d. (n : List ℕ) → is_among d.names n ≡ is_among (name_texts d.listed.now) n };
}

impl<'a> Dummies<'a> {
    /// Of a heading; the main program has none.
    pub fn of(alloc: Global, listed: &'a [Name]) -> Result<Dummies<'a>, NoMemory>
        ensures { IfOk result (λ d. d ≡ name_texts listed.now) }
    {
        let mut names = Names::new(alloc);
        add_names(&mut names, listed)?;
        Ok(Dummies { listed, names })
    }

    /// Whether a name is that of a dummy.
    pub fn contains(&self, name: &[u8]) -> bool
        ensures { result ≡ is_among self.now name.now }
    {
        self.names.contains(name)
    }
}

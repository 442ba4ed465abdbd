//! Names that stand for entities.

ghost use Rattle.std.specs.Prelude.{◌≡◌, ◌++◌, ◌∷◌, [], OnOk};
ghost use Rattle.unit_references.specs.References as names;
ghost use Rattle.unit_references.specs.Written.{written};

use caf_base::place::Pos;
use caf_base::refusal::NoMemory;
use fortran_tree::expr::NumberKind;
use fortran_tree::name::Name;
use std::alloc::Global;
use std::marker::Model;

/// A name as it stands in the source.
#[derive(Clone, Copy)]
pub struct Reference<'a> {
    pub text: &'a [u8],
    pub at: Pos,
}

/// The names of a part, in source order. In a contract it is the list of them.
#[derive(Drop)]
pub struct References<'a> {
    items: Vec<Reference<'a>>,
}

impl<'a> Model for References<'a> {
    ghost use Rattle.std.specs.Prelude.{List, map};
    ghost use Rattle.fortran_tree.specs.declared.name.Name.{Name as NameSeen};
    ghost use Rattle.unit_references.specs.Written.{reference};

    ghost Value = { List NameSeen };

    ghost view = { λ r. map reference r.items.items };
}

impl<'a> References<'a> {
    /// No names.
    pub fn new(alloc: Global) -> References<'a>
        ensures { result ≡ [] }
    {
        References {
            items: Vec::new(alloc),
        }
    }

    /// The names as they stand.
    pub fn as_slice(&self) -> &[Reference<'a>]
        ensures { written result.now ≡ self.now }
    {
        self.items.as_slice()
    }

    /// Puts a name at the end.
    pub fn add_name(&mut self, name: &'a Name) -> Result<(), NoMemory>
        ensures { OnOk result (self.new ≡ self.old ++ name.now ∷ []) }
    {
        self.items.push(Reference {
            text: name.text.as_slice(),
            at: name.at,
        })?;
        Ok(())
    }

    /// Puts the kind behind an integer literal at the end, at the place of the literal.
    pub fn add_kind(&mut self, kind: &'a NumberKind, at: Pos) -> Result<(), NoMemory>
        ensures { OnOk result (self.new ≡ self.old ++ names.number_kind kind.now at) }
    {
        match kind {
            NumberKind::Named(text) => {
                self.items.push(Reference {
                    text: text.as_slice(),
                    at,
                })?;
                Ok(())
            }
            NumberKind::Unstated | NumberKind::Four | NumberKind::Eight => Ok(()),
        }
    }
}

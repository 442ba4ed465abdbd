//! Readers of names in lists.

ghost use Rattle.std.specs.Prelude.{List};
ghost use Rattle.action_reader.specs.Views.{a_name_at, names_at};
ghost use Rattle.fortran_tree.specs.declared.name.Name.{Name};

use crate::key::begins_with_name;
use crate::reads::{Reads, list};
use expr_reader::error::ReadError;
use expr_reader::one::name;
use expr_reader::word::Word;
use fortran_tree::name::Name;
use std::alloc::Global;

/// A name (R603).
pub struct AName;

impl Reads for AName {
    type Tree = Name;

    ghost Seen = { Name };

    ghost look = { λ n. n };

    ghost reader = { a_name_at };

    fn read<'a>(_: Global, words: &'a [Word], _: u32) -> Result<(Name, &'a [Word]), ReadError> {
        name(words)
    }
}

/// Names with commas between them, or none.
pub struct AnyNames;

impl Reads for AnyNames {
    type Tree = Vec<Name>;

    ghost Seen = { List Name };

    ghost look = { λ ns. ns.items };

    ghost reader = { names_at };

    #[tactic(auto, using(crate::proofs::Specifiers::specifier_laws))]
    fn read<'a>(
        alloc: Global,
        words: &'a [Word],
        left: u32,
    ) -> Result<(Vec<Name>, &'a [Word]), ReadError> {
        if !begins_with_name(words) {
            return Ok((Vec::new(alloc), words));
        }
        list::<AName>(alloc, words, left)
    }
}

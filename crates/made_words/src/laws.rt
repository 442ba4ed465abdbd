//! The law of the words of made sources. It is the contract of a function that does nothing.

ghost use Rattle.std.specs.Prelude.{◌≤◌, ℕ};
ghost use Rattle.work_maker.specs.MadeSource.{made_source};
ghost use Rattle.made_tree.specs.MadeTree.{made_tree};
ghost use Rattle.made_words.specs.Readings.{IsSpelled, values_of};

/// A made source spells the tree of a made program with the values of its seed.
pub fn law_made_is_spelled()
    ensures { (seed size : ℕ) → size ≤ 4096 → IsSpelled (made_source seed size) (made_tree (values_of seed) size) }
{}

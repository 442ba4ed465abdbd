//! The law of the trees of made programs. It is the contract of a function that does nothing.

ghost use Rattle.std.specs.Prelude.{◌≡◌, ◌≤◌, ℕ, []};
ghost use Rattle.rule_definitions.specs.Units.{program_judged};
ghost use Rattle.made_tree.specs.MadeTree.{made_tree};

/// A made program breaks none of the rules 20 to 59, whatever its elements begin with, as long as kind 4 holds it.
pub fn law_made_tree_is_unbroken()
    ensures { (value : ℕ → ℕ) (size : ℕ) → ((j : ℕ) → value j ≤ 2147483647) → 1 ≤ size → size ≤ 4096
        → (program_judged (made_tree value size)).breaks ≡ [] }
{}

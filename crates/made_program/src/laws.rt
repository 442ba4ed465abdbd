//! The law of made sources. It is the contract of a function that does nothing.

ghost use Rattle.std.specs.Prelude.{◌≡◌, ◌≤◌, ℕ, []};
ghost use Rattle.fortran_tree.specs.Units.{Program};
ghost use Rattle.source_reader.specs.Sources.{IsRead};
ghost use Rattle.rule_definitions.specs.Units.{program_judged};
ghost use Rattle.work_maker.specs.MadeSource.{made_source};

/// A made source is read as a program that breaks none of the rules 20 to 59, whatever the seed is, for each size
/// from 1 to 4,096.
pub fn law_made_is_good()
    ensures { (seed size : ℕ) → 1 ≤ size → size ≤ 4096
        → (x : Program) × IsRead (made_source seed size) x × ((program_judged x).breaks ≡ []) }
{}

//! What the words of the contracts say of code.

ghost use Rattle.std.specs.Prelude.{◌≡◌, ◌+◌, ◌||◌, ℕ};
ghost use Rattle.walk_theory.specs.Made.{parts_code, parts_size};
ghost use Rattle.walk_theory.specs.Syntax.{Parts};
ghost use Rattle.image_acts.specs.Acts.{Act};
ghost use Rattle.tree_meaning.specs.Sequences.{released, takes};
ghost use Rattle.expr_code.specs.Drafts.{Drafted, ended, lines_in, looked, starts_of, with_lines, written};

/// What is written of parts is their code behind the lines that were there.
pub fn law_written()
    ensures { (line : ℕ) (parts : Parts Act) (draft : Drafted) → written line parts draft ≡ with_lines (parts_code (starts_of draft) line parts) draft }
{}

/// A draft is longer by the size of what was written, also one that only counts.
pub fn law_written_size()
    ensures { (line : ℕ) (parts : Parts Act) (draft : Drafted) → lines_in (written line parts draft).body ≡ lines_in draft.body + parts_size parts }
{}

/// A draft says whether parts that were written take evaluation cells.
pub fn law_written_takes()
    ensures { (line : ℕ) (parts : Parts Act) (draft : Drafted) → (written line parts draft).took ≡ (takes parts || draft.took) }
{}

/// Parts that are written between `look` and `release` are written as a statement whose evaluation cells are free again
/// behind it.
pub fn law_written_released()
    ensures { (line : ℕ) (parts : Parts Act) (draft : Drafted) → ended line draft.took (written line parts (looked draft)) ≡ written line (released parts) draft }
{}

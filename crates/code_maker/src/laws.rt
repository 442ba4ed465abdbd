//! What the words of the contracts say of code.

ghost use Rattle.std.specs.Prelude.{◌≡◌, ◌+◌, List};
ghost use Rattle.walk_theory.specs.Made.{Places, steps_code, steps_size};
ghost use Rattle.walk_theory.specs.Syntax.{Steps};
ghost use Rattle.image_acts.specs.Acts.{Act};
ghost use Rattle.expr_code.specs.Drafts.{Drafted, lines_in, starts_of, with_lines};
ghost use Rattle.code_maker.specs.Blocks.{steps_written};

/// What is written of a block is its code at the place behind the lines that were there.
pub fn law_steps_written()
    ensures { (loops : List Places) (block : Steps Act) (draft : Drafted) → steps_written loops block draft ≡ with_lines (steps_code (starts_of draft) loops (lines_in draft.body) block) draft }
{}

/// A draft is longer by the size of the block, also one that only counts.
pub fn law_steps_written_size()
    ensures { (loops : List Places) (block : Steps Act) (draft : Drafted) → lines_in (steps_written loops block draft).body ≡ lines_in draft.body + steps_size block }
{}

//! Readers of assignments as statements (ISO/IEC 1539-1:2018, R1032).

ghost use Rattle.expr_reader.specs.Results.{Gives};
ghost use Rattle.expr_reader.specs.Words.{tokens_of};
ghost use Rattle.statement_reader.specs.Forms as forms;
ghost use Rattle.statement_reader.specs.Parts as f;
ghost use Rattle.part_reader.specs.Views as view;

use crate::part::Part;
use action_reader::designator::assignment as assigned;
use action_reader::key::{ended, place};
use expr_reader::error::ReadError;
use expr_reader::word::Word;
use std::alloc::Global;

/// An assignment, and the end of its statement.
#[tactic(auto, using(crate::proofs::Deepened::deep_laws))]
pub fn assignment<'a>(
    alloc: Global,
    words: &'a [Word],
    left: u32,
) -> Result<(Part, &'a [Word]), ReadError>
    ensures { Gives (λ r. (view.part r.0, tokens_of r.1.now)) result (forms.form_reader f.assignment_form left (tokens_of words.now)) }
{
    let at = place(words);
    let (form, rest) = assigned(alloc, words, left)?;
    let (form, rest) = ended(form, rest)?;
    Ok((Part::Action { form, at }, rest))
}

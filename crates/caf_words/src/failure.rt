//! Failures, as words tell them.

ghost use Rattle.std.specs.Prelude.{IfSome, IfNone};
ghost use Rattle.caf_words.specs.declared.command.FailAt.{FailAt};
ghost use Rattle.caf_words.specs.Words.{IsFailure};

use crate::command::FailAt;
use crate::number::number_between;
use caf_base::limits::IMAGES;

/// The greatest number of an event at which an image may be told to fail.
const GREATEST_STEP: u32 = 1_000_000;

/// The failure that a word tells, as `3@12`.
pub(crate) fn failure_of(word: &str) -> Option<FailAt>
    ensures failure { IfSome result (IsFailure word.now) }
    ensures none { IfNone result ((f : FailAt) → ¬ IsFailure word.now f) }
{
    let (image, step) = word.split_once('@')?;
    Some(FailAt {
        image: number_between(image, 1, IMAGES)?,
        step: number_between(step, 1, GREATEST_STEP)?,
    })
}

//! Forms of parts, and how they are read.

ghost use Rattle.std.specs.Prelude.{◌≡◌, MatchResult};
ghost use Rattle.expr_reader.specs.Words.{tokens_of};
ghost use Rattle.reason_reader.specs.Ends.{Leaves};
ghost use Rattle.statement_reader.specs.Forms as forms;
ghost use Rattle.statement_reader.specs.Parts as f;

use expr_reader::error::{ReadError, Stop};
use expr_reader::word::Word;
use std::alloc::Global;

/// How a part ends: the words behind it, or where and why reading stops.
pub type End<'a> = Result<&'a [Word], Stop>;

/// Names of the forms of parts, with how a part of each ends.
///
/// `form` is the form that a name stands for.
pub trait ReadsForms {
    type Name: Copy;

    ghost form: { Self.Name → f.Form };

    /// Assignments.
    fn assignment() -> Self::Name
        ensures { form result ≡ f.assignment_form };

    /// Actions that begin with a keyword.
    fn keyword() -> Self::Name
        ensures { form result ≡ f.keyword_form };

    /// IF with its condition, before an action.
    fn condition() -> Self::Name
        ensures { form result ≡ f.condition_form };

    /// Reads a part of a form from the first word on, where so many levels may still be opened, and keeps only how it
    /// ends: the words behind it, or where and why reading stops. There is no other error than want of memory.
    fn end<'a>(
        name: Self::Name,
        alloc: Global,
        words: &'a [Word],
        left: u32,
    ) -> Result<End<'a>, ReadError>
        ensures { MatchResult result (λ z. Leaves (λ r. tokens_of r.now) z (forms.form_reader (form name) left (tokens_of words.now))) (λ e. e ≡ ReadError.Memory) };
}

//! Readers of actions that turn the flow of control or end the program (ISO/IEC 1539-1:2018, 11.1.12, 11.1.7.4.4, 11.4,
//! 11.5 and 15.6.2.7).

ghost use Rattle.std.specs.Prelude.{codes};
ghost use Rattle.expr_reader.specs.Results.{Gives};
ghost use Rattle.expr_reader.specs.Words.{tokens_of};
ghost use Rattle.fortran_tree.specs.ActionViews as forms;
ghost use Rattle.fortran_tree.specs.Statements as tree;
ghost use Rattle.statement_reader.specs.Actions as actions;
ghost use Rattle.statement_reader.specs.Keywords.{after, made};

use action_reader::key::{key, maybe_name};
use action_reader::specifier::maybe_expression;
use expr_reader::error::ReadError;
use expr_reader::word::Word;
use fortran_tree::action::ActionForm;
use std::alloc::Global;

/// EXIT (R1156).
#[tactic(auto, using(crate::proofs::Keyed::keyed_laws))]
pub(crate) fn exit(words: &[Word]) -> Result<(ActionForm, &[Word]), ReadError>
    ensures { Gives (λ r. (forms.action_statement r.0, tokens_of r.1.now)) result (after (codes "exit") (made tree.exit actions.maybe_name) 0 (tokens_of words.now)) }
{
    let rest = key(words, b"exit")?;
    let (construct, rest) = maybe_name(rest)?;
    Ok((ActionForm::Exit { construct }, rest))
}

/// CYCLE (R1133).
#[tactic(auto, using(crate::proofs::Keyed::keyed_laws))]
pub(crate) fn cycle(words: &[Word]) -> Result<(ActionForm, &[Word]), ReadError>
    ensures { Gives (λ r. (forms.action_statement r.0, tokens_of r.1.now)) result (after (codes "cycle") (made tree.cycle actions.maybe_name) 0 (tokens_of words.now)) }
{
    let rest = key(words, b"cycle")?;
    let (construct, rest) = maybe_name(rest)?;
    Ok((ActionForm::Cycle { construct }, rest))
}

/// RETURN (R1542).
#[tactic(auto, using(crate::proofs::Keyed::keyed_laws))]
pub(crate) fn returned(words: &[Word]) -> Result<(ActionForm, &[Word]), ReadError>
    ensures { Gives (λ r. (forms.action_statement r.0, tokens_of r.1.now)) result (made (actions.of_none tree.return) (actions.a_key (codes "return")) 0 (tokens_of words.now)) }
{
    let rest = key(words, b"return")?;
    Ok((ActionForm::Return, rest))
}

/// STOP (R1160).
#[tactic(auto, using(crate::proofs::Keyed::keyed_laws))]
pub(crate) fn stop<'a>(
    alloc: Global,
    words: &'a [Word],
    left: u32,
) -> Result<(ActionForm, &'a [Word]), ReadError>
    ensures { Gives (λ r. (forms.action_statement r.0, tokens_of r.1.now)) result (after (codes "stop") (made tree.stop actions.maybe_expression) left (tokens_of words.now)) }
{
    let rest = key(words, b"stop")?;
    let (code, rest) = maybe_expression(alloc, rest, left)?;
    Ok((ActionForm::Stop { code }, rest))
}

/// ERROR STOP (R1161).
#[tactic(auto, using(crate::proofs::Keyed::keyed_laws))]
pub(crate) fn error_stop<'a>(
    alloc: Global,
    words: &'a [Word],
    left: u32,
) -> Result<(ActionForm, &'a [Word]), ReadError>
    ensures { Gives (λ r. (forms.action_statement r.0, tokens_of r.1.now)) result (after (codes "error") (after (codes "stop") (made tree.error_stop actions.maybe_expression)) left (tokens_of words.now)) }
{
    let rest = key(words, b"error")?;
    let rest = key(rest, b"stop")?;
    let (code, rest) = maybe_expression(alloc, rest, left)?;
    Ok((ActionForm::ErrorStop { code }, rest))
}

/// FAIL IMAGE (R1163).
#[tactic(auto, using(crate::proofs::Keyed::keyed_laws))]
pub(crate) fn fail_image(words: &[Word]) -> Result<(ActionForm, &[Word]), ReadError>
    ensures { Gives (λ r. (forms.action_statement r.0, tokens_of r.1.now)) result (after (codes "fail") (made (actions.of_none tree.fail_image) (actions.a_key (codes "image"))) 0 (tokens_of words.now)) }
{
    let rest = key(words, b"fail")?;
    let rest = key(rest, b"image")?;
    Ok((ActionForm::FailImage, rest))
}

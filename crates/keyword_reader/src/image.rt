//! Readers of the image control statements SYNC, FORM TEAM, EVENT, LOCK and UNLOCK (ISO/IEC 1539-1:2018, 11.6), and of
//! CALL (15.5.1).

ghost use Rattle.std.specs.Prelude.{codes};
ghost use Rattle.expr_reader.specs.Results.{Gives};
ghost use Rattle.expr_reader.specs.Words.{tokens_of};
ghost use Rattle.fortran_tree.specs.ActionViews as forms;
ghost use Rattle.fortran_tree.specs.Expressions as expressions;
ghost use Rattle.fortran_tree.specs.Statements as tree;
ghost use Rattle.fortran_tree.specs.declared.name.Name.{Name};
ghost use Rattle.keyword_reader.specs.Families as families;
ghost use Rattle.keyword_reader.specs.Views as views;
ghost use Rattle.statement_reader.specs.Actions as actions;
ghost use Rattle.statement_reader.specs.Families.{rounded};
ghost use Rattle.statement_reader.specs.Keywords.{after, an_event, a_sync, made};

use action_reader::designator::{AnObject, called};
use action_reader::key::{begins_with_key, key};
use action_reader::reads::{Reads, in_round};
use action_reader::specifier::{ATeam, further_specifiers, maybe_specifiers};
use expr_reader::error::ReadError;
use expr_reader::expr::expression;
use expr_reader::one::{begins_with, name, sign};
use expr_reader::word::Word;
use fortran_tokens::token::Sign;
use fortran_tree::action::{ActionForm, ImageSet};
use fortran_tree::expr::{Expr, Specifier};
use fortran_tree::name::Name;
use std::alloc::Global;

/// CALL (R1521).
#[tactic(auto, using(crate::proofs::Keyed::keyed_laws))]
pub(crate) fn call<'a>(
    alloc: Global,
    words: &'a [Word],
    left: u32,
) -> Result<(ActionForm, &'a [Word]), ReadError>
    ensures { Gives (λ r. (forms.action_statement r.0, tokens_of r.1.now)) result (after (codes "call") (made (actions.of_two tree.call) actions.a_call) left (tokens_of words.now)) }
{
    let rest = key(words, b"call")?;
    let ((subroutine, arguments), rest) = called(alloc, rest, left)?;
    Ok((
        ActionForm::Call {
            subroutine,
            arguments,
        },
        rest,
    ))
}

/// LOCK (R1179).
#[tactic(auto, using(crate::proofs::Keyed::keyed_laws))]
pub(crate) fn lock<'a>(
    alloc: Global,
    words: &'a [Word],
    left: u32,
) -> Result<(ActionForm, &'a [Word]), ReadError>
    ensures { Gives (λ r. (forms.action_statement r.0, tokens_of r.1.now)) result (after (codes "lock") (made (actions.of_two tree.lock) (rounded actions.an_object)) left (tokens_of words.now)) }
{
    let rest = key(words, b"lock")?;
    let ((variable, specifiers), rest) = in_round::<AnObject>(alloc, rest, left)?;
    Ok((
        ActionForm::Lock {
            variable,
            specifiers,
        },
        rest,
    ))
}

/// UNLOCK (R1181).
#[tactic(auto, using(crate::proofs::Keyed::keyed_laws))]
pub(crate) fn unlock<'a>(
    alloc: Global,
    words: &'a [Word],
    left: u32,
) -> Result<(ActionForm, &'a [Word]), ReadError>
    ensures { Gives (λ r. (forms.action_statement r.0, tokens_of r.1.now)) result (after (codes "unlock") (made (actions.of_two tree.unlock) (rounded actions.an_object)) left (tokens_of words.now)) }
{
    let rest = key(words, b"unlock")?;
    let ((variable, specifiers), rest) = in_round::<AnObject>(alloc, rest, left)?;
    Ok((
        ActionForm::Unlock {
            variable,
            specifiers,
        },
        rest,
    ))
}

/// POST and what stands behind it.
#[tactic(auto, using(crate::proofs::Keyed::keyed_laws))]
fn post<'a>(
    alloc: Global,
    words: &'a [Word],
    left: u32,
) -> Result<(ActionForm, &'a [Word]), ReadError>
    ensures { Gives (λ r. (forms.action_statement r.0, tokens_of r.1.now)) result (after (codes "post") (made (actions.of_two tree.event_post) (rounded actions.an_object)) left (tokens_of words.now)) }
{
    let rest = key(words, b"post")?;
    let ((variable, specifiers), rest) = in_round::<AnObject>(alloc, rest, left)?;
    Ok((
        ActionForm::EventPost {
            variable,
            specifiers,
        },
        rest,
    ))
}

/// WAIT and what stands behind it.
#[tactic(auto, using(crate::proofs::Keyed::keyed_laws))]
fn wait<'a>(
    alloc: Global,
    words: &'a [Word],
    left: u32,
) -> Result<(ActionForm, &'a [Word]), ReadError>
    ensures { Gives (λ r. (forms.action_statement r.0, tokens_of r.1.now)) result (after (codes "wait") (made (actions.of_two tree.event_wait) (rounded actions.an_object)) left (tokens_of words.now)) }
{
    let rest = key(words, b"wait")?;
    let ((variable, specifiers), rest) = in_round::<AnObject>(alloc, rest, left)?;
    Ok((
        ActionForm::EventWait {
            variable,
            specifiers,
        },
        rest,
    ))
}

/// EVENT POST (R1170) or EVENT WAIT (R1172).
#[tactic(auto, using(crate::proofs::Keyed::keyed_laws))]
pub(crate) fn event<'a>(
    alloc: Global,
    words: &'a [Word],
    left: u32,
) -> Result<(ActionForm, &'a [Word]), ReadError>
    ensures { Gives (λ r. (forms.action_statement r.0, tokens_of r.1.now)) result (after (codes "event") an_event left (tokens_of words.now)) }
{
    let rest = key(words, b"event")?;
    if begins_with_key(rest, b"post") {
        return post(alloc, rest, left);
    }
    wait(alloc, rest, left)
}

/// ALL and what stands behind it.
#[tactic(auto, using(crate::proofs::Keyed::keyed_laws))]
fn all<'a>(
    alloc: Global,
    words: &'a [Word],
    left: u32,
) -> Result<(ActionForm, &'a [Word]), ReadError>
    ensures { Gives (λ r. (forms.action_statement r.0, tokens_of r.1.now)) result (after (codes "all") (made tree.sync_all actions.maybe_specifiers) left (tokens_of words.now)) }
{
    let rest = key(words, b"all")?;
    let (specifiers, rest) = maybe_specifiers(alloc, rest, left)?;
    Ok((ActionForm::SyncAll { specifiers }, rest))
}

/// MEMORY and what stands behind it.
#[tactic(auto, using(crate::proofs::Keyed::keyed_laws))]
fn memory<'a>(
    alloc: Global,
    words: &'a [Word],
    left: u32,
) -> Result<(ActionForm, &'a [Word]), ReadError>
    ensures { Gives (λ r. (forms.action_statement r.0, tokens_of r.1.now)) result (after (codes "memory") (made tree.sync_memory actions.maybe_specifiers) left (tokens_of words.now)) }
{
    let rest = key(words, b"memory")?;
    let (specifiers, rest) = maybe_specifiers(alloc, rest, left)?;
    Ok((ActionForm::SyncMemory { specifiers }, rest))
}

/// The images of SYNC IMAGES (R1167).
#[tactic(auto, using(crate::proofs::Keyed::keyed_laws))]
fn image_set<'a>(
    alloc: Global,
    words: &'a [Word],
    left: u32,
) -> Result<(ImageSet, &'a [Word]), ReadError>
    ensures { Gives (λ r. (forms.image_set r.0, tokens_of r.1.now)) result (actions.an_image_set left (tokens_of words.now)) }
{
    if begins_with(words, Sign::Star) {
        let (_, rest) = sign(words, Sign::Star)?;
        return Ok((ImageSet::All, rest));
    }
    let (images, rest) = expression(alloc, words, left)?;
    Ok((ImageSet::Images(images), rest))
}

/// Images and specifiers behind them.
pub struct SomeImages;

impl Reads for SomeImages {
    type Tree = (ImageSet, Vec<Specifier>);

    ghost Seen = { tree.ImageSet × expressions.Specifiers };

    ghost look = { views.images_of };

    ghost reader = { actions.some_images };

    #[tactic(auto, using(crate::proofs::Keyed::keyed_laws))]
    fn read<'a>(
        alloc: Global,
        words: &'a [Word],
        left: u32,
    ) -> Result<((ImageSet, Vec<Specifier>), &'a [Word]), ReadError> {
        let (images, rest) = image_set(alloc, words, left)?;
        match further_specifiers(alloc, rest, left) {
            Ok((specifiers, rest)) => Ok(((images, specifiers), rest)),
            Err(e) => {
                drop(images);
                Err(e)
            }
        }
    }
}

/// IMAGES and what stands behind it.
#[tactic(auto, using(crate::proofs::Keyed::keyed_laws))]
fn images<'a>(
    alloc: Global,
    words: &'a [Word],
    left: u32,
) -> Result<(ActionForm, &'a [Word]), ReadError>
    ensures { Gives (λ r. (forms.action_statement r.0, tokens_of r.1.now)) result (after (codes "images") (made (actions.of_two tree.sync_images) (rounded actions.some_images)) left (tokens_of words.now)) }
{
    let rest = key(words, b"images")?;
    let ((images, specifiers), rest) = in_round::<SomeImages>(alloc, rest, left)?;
    Ok((ActionForm::SyncImages { images, specifiers }, rest))
}

/// TEAM and what stands behind it in SYNC TEAM.
#[tactic(auto, using(crate::proofs::Keyed::keyed_laws))]
fn team<'a>(
    alloc: Global,
    words: &'a [Word],
    left: u32,
) -> Result<(ActionForm, &'a [Word]), ReadError>
    ensures { Gives (λ r. (forms.action_statement r.0, tokens_of r.1.now)) result (after (codes "team") (made (actions.of_two tree.sync_team) (rounded actions.a_team)) left (tokens_of words.now)) }
{
    let rest = key(words, b"team")?;
    let ((team, specifiers), rest) = in_round::<ATeam>(alloc, rest, left)?;
    Ok((ActionForm::SyncTeam { team, specifiers }, rest))
}

/// SYNC ALL (R1164), SYNC MEMORY (R1168), SYNC IMAGES (R1166) or SYNC TEAM (R1169).
#[tactic(auto, using(crate::proofs::Keyed::keyed_laws))]
pub(crate) fn sync<'a>(
    alloc: Global,
    words: &'a [Word],
    left: u32,
) -> Result<(ActionForm, &'a [Word]), ReadError>
    ensures { Gives (λ r. (forms.action_statement r.0, tokens_of r.1.now)) result (after (codes "sync") a_sync left (tokens_of words.now)) }
{
    let rest = key(words, b"sync")?;
    if begins_with_key(rest, b"all") {
        return all(alloc, rest, left);
    }
    if begins_with_key(rest, b"memory") {
        return memory(alloc, rest, left);
    }
    if begins_with_key(rest, b"images") {
        return images(alloc, rest, left);
    }
    team(alloc, rest, left)
}

/// A comma and the variable of a new team, and specifiers behind it.
#[tactic(auto, using(crate::proofs::Keyed::keyed_laws))]
fn team_variable<'a>(
    alloc: Global,
    words: &'a [Word],
    left: u32,
) -> Result<((Name, Vec<Specifier>), &'a [Word]), ReadError>
    ensures { Gives (λ r. (views.named_of r.0, tokens_of r.1.now)) result (families.team_variable left (tokens_of words.now)) }
{
    let (_, rest) = sign(words, Sign::Comma)?;
    let (team, rest) = name(rest)?;
    match further_specifiers(alloc, rest, left) {
        Ok((specifiers, rest)) => Ok(((team, specifiers), rest)),
        Err(e) => {
            drop(team);
            Err(e)
        }
    }
}

/// What stands in the brackets of FORM TEAM: the number, the variable and specifiers.
pub struct ANewTeam;

impl Reads for ANewTeam {
    type Tree = (Expr, (Name, Vec<Specifier>));

    ghost Seen = { expressions.Expression × (Name × expressions.Specifiers) };

    ghost look = { views.new_team_of };

    ghost reader = { actions.a_new_team };

    #[tactic(auto, using(crate::proofs::Keyed::keyed_laws))]
    fn read<'a>(
        alloc: Global,
        words: &'a [Word],
        left: u32,
    ) -> Result<((Expr, (Name, Vec<Specifier>)), &'a [Word]), ReadError> {
        let (number, rest) = expression(alloc, words, left)?;
        match team_variable(alloc, rest, left) {
            Ok((team, rest)) => Ok(((number, team), rest)),
            Err(e) => {
                drop(number);
                Err(e)
            }
        }
    }
}

/// FORM TEAM (R1175).
#[tactic(auto, using(crate::proofs::Keyed::keyed_laws))]
pub(crate) fn form_team<'a>(
    alloc: Global,
    words: &'a [Word],
    left: u32,
) -> Result<(ActionForm, &'a [Word]), ReadError>
    ensures { Gives (λ r. (forms.action_statement r.0, tokens_of r.1.now)) result (after (codes "form") (after (codes "team") (made (actions.of_three tree.form_team) (rounded actions.a_new_team))) left (tokens_of words.now)) }
{
    let rest = key(words, b"form")?;
    let rest = key(rest, b"team")?;
    let ((number, (team, specifiers)), rest) = in_round::<ANewTeam>(alloc, rest, left)?;
    Ok((
        ActionForm::FormTeam {
            number,
            team,
            specifiers,
        },
        rest,
    ))
}

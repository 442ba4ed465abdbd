//! Readers of CRITICAL, of CHANGE TEAM and of END TEAM (ISO/IEC 1539-1:2018, 11.1.6 and 11.1.5).

ghost use Rattle.std.specs.Prelude.{Option, codes};
ghost use Rattle.action_reader.specs.Views.{team_of};
ghost use Rattle.expr_reader.specs.Results.{Gives};
ghost use Rattle.expr_reader.specs.Words.{tokens_of};
ghost use Rattle.fortran_tree.specs.StatementViews as statements;
ghost use Rattle.statement_reader.specs.Actions as actions;
ghost use Rattle.statement_reader.specs.Families.{rounded};
ghost use Rattle.statement_reader.specs.Forms as forms;
ghost use Rattle.statement_reader.specs.Heads as heads;
ghost use Rattle.statement_reader.specs.Parts as f;
ghost use Rattle.part_reader.specs.Levels as levels;
ghost use Rattle.part_reader.specs.Views as view;

use crate::head::deep_key;
use crate::part::Part;
use action_reader::key::{begins_with_name, ended, joined_at, key, place};
use action_reader::reads::{Reads, in_round};
use action_reader::specifier::{ASpecifier, ATeam};
use expr_reader::error::ReadError;
use expr_reader::one::begins_with;
use expr_reader::word::Word;
use fortran_tokens::token::Sign;
use fortran_tree::expr::{Expr, Specifier};
use fortran_tree::statement::BracketedSpecifier;
use std::alloc::Global;

/// A specifier, or none.
pub struct MaybeSpecifier;

impl Reads for MaybeSpecifier {
    type Tree = Option<Specifier>;

    ghost Seen = { Option actions.Assigned };

    ghost look = { view.maybe_assigned };

    ghost reader = { levels.maybe_specifier };

    #[tactic(auto, using(crate::proofs::Deepened::deep_laws))]
    fn read<'a>(
        alloc: Global,
        words: &'a [Word],
        left: u32,
    ) -> Result<(Option<Specifier>, &'a [Word]), ReadError> {
        if !begins_with_name(words) {
            return Ok((None, words));
        }
        let (specifier, rest) = ASpecifier::read(alloc, words, left)?;
        Ok((Some(specifier), rest))
    }
}

/// Brackets that may hold one specifier, where there are any.
#[tactic(auto, using(crate::proofs::Deepened::deep_laws))]
fn bracketed_specifier<'a>(
    alloc: Global,
    words: &'a [Word],
    left: u32,
) -> Result<(BracketedSpecifier, &'a [Word]), ReadError>
    ensures { Gives (λ r. (statements.bracketed_specifier r.0, tokens_of r.1.now)) result (heads.a_bracketed_specifier left (tokens_of words.now)) }
{
    if !begins_with(words, Sign::OpenRound) {
        return Ok((BracketedSpecifier::Absent, words));
    }
    let (specifier, rest) = in_round::<MaybeSpecifier>(alloc, words, left)?;
    match specifier {
        None => Ok((BracketedSpecifier::Empty, rest)),
        Some(specifier) => Ok((BracketedSpecifier::Present(specifier), rest)),
    }
}

/// CRITICAL (R1117).
#[tactic(auto, using(crate::proofs::Deepened::deep_laws))]
pub fn critical<'a>(
    alloc: Global,
    words: &'a [Word],
    left: u32,
) -> Result<(Part, &'a [Word]), ReadError>
    ensures { Gives (λ r. (view.part r.0, tokens_of r.1.now)) result (forms.form_reader f.critical_form left (tokens_of words.now)) }
{
    let at = place(words);
    let rest = deep_key(words, b"critical", left)?;
    let (specifier, rest) = bracketed_specifier(alloc, rest, left - 1)?;
    let (specifier, rest) = ended(specifier, rest)?;
    Ok((Part::Critical { specifier, at }, rest))
}

/// TEAM, a team and specifiers in brackets, and the end of the statement.
#[tactic(auto, using(crate::proofs::Deepened::deep_laws))]
fn keyed_team<'a>(
    alloc: Global,
    words: &'a [Word],
    left: u32,
) -> Result<((Expr, Vec<Specifier>), &'a [Word]), ReadError>
    ensures { Gives (λ r. (team_of r.0, tokens_of r.1.now)) result (heads.behind_key (codes "team") (heads.with (rounded actions.a_team) heads.an_end) left (tokens_of words.now)) }
{
    let rest = key(words, b"team")?;
    let (read, rest) = in_round::<ATeam>(alloc, rest, left)?;
    ended(read, rest)
}

/// CHANGE TEAM (R1112).
#[tactic(auto, using(crate::proofs::Deepened::deep_laws))]
pub fn change_team<'a>(
    alloc: Global,
    words: &'a [Word],
    left: u32,
) -> Result<(Part, &'a [Word]), ReadError>
    ensures { Gives (λ r. (view.part r.0, tokens_of r.1.now)) result (forms.form_reader f.team_form left (tokens_of words.now)) }
{
    let at = place(words);
    let rest = deep_key(words, b"change", left)?;
    let ((team, specifiers), rest) = keyed_team(alloc, rest, left - 1)?;
    Ok((
        Part::ChangeTeam {
            team,
            specifiers,
            at,
        },
        rest,
    ))
}

/// END TEAM (R1114).
#[tactic(auto, using(crate::proofs::Deepened::deep_laws))]
pub fn end_team<'a>(
    alloc: Global,
    words: &'a [Word],
    left: u32,
) -> Result<(Part, &'a [Word]), ReadError>
    ensures { Gives (λ r. (view.part r.0, tokens_of r.1.now)) result (forms.form_reader f.end_team_form left (tokens_of words.now)) }
{
    let (at, rest) = joined_at(words, b"endteam", b"end", b"team")?;
    let (specifier, rest) = bracketed_specifier(alloc, rest, left)?;
    let (specifier, rest) = ended(specifier, rest)?;
    Ok((Part::EndTeam { specifier, at }, rest))
}

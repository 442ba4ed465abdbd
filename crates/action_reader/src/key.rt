//! Readers of keywords, of brackets and of the end of a statement. Each takes the words from its place on, and gives
//! the words behind what it reads.

ghost use Rattle.std.specs.Prelude.{◌≡◌, ◌++◌, IfOk};
ghost use Rattle.expr_reader.specs.Openings.{opens};
ghost use Rattle.expr_reader.specs.Results.{Gives};
ghost use Rattle.expr_reader.specs.Tests as tests;
ghost use Rattle.expr_reader.specs.Words.{token_of, tokens_of};
ghost use Rattle.reader_theory.specs.Readers.{optional};
ghost use Rattle.statement_reader.specs.Actions.{a_key};
ghost use Rattle.statement_reader.specs.Heads as heads;
ghost use Rattle.action_reader.specs.Beginnings.{begins, first_at, one};

use caf_base::place::Pos;
use expr_reader::error::{ReadError, expected};
use expr_reader::one::{name, sign};
use expr_reader::token::{is_name, opens};
use expr_reader::word::{Word, WordKind};
use fortran_tokens::token::Sign;
use fortran_tree::name::Name;

/// The token is this keyword.
pub fn is_key(word: &Word, keyword: &[u8]) -> bool
    ensures { result ≡ tests.is_key keyword.now (token_of word.now) }
{
    match &word.kind {
        WordKind::Name(text) => keyword == text.as_slice(),
        _ => false,
    }
}

/// The words begin with this keyword.
#[tactic(auto, using(crate::proofs::Keys::key_laws))]
pub fn begins_with_key(words: &[Word], keyword: &[u8]) -> bool
    ensures { result ≡ begins (tests.is_key keyword.now) (tokens_of words.now) }
{
    match words.split_first() {
        Some((first, _)) => is_key(first, keyword),
        None => false,
    }
}

/// The words begin with a name.
#[tactic(auto, using(crate::proofs::Keys::key_laws))]
pub fn begins_with_name(words: &[Word]) -> bool
    ensures { result ≡ begins tests.is_word (tokens_of words.now) }
{
    match words.split_first() {
        Some((first, _)) => is_name(first),
        None => false,
    }
}

/// The words begin with what may begin an expression.
#[tactic(auto, using(crate::proofs::Keys::key_laws))]
pub fn begins_expression(words: &[Word]) -> bool
    ensures { result ≡ begins (opens 1) (tokens_of words.now) }
{
    match words.split_first() {
        Some((first, _)) => opens(1, first),
        None => false,
    }
}

/// Where the words begin.
#[tactic(auto, using(crate::proofs::Keys::key_laws))]
pub fn place(words: &[Word]) -> Pos
    ensures { result ≡ first_at (tokens_of words.now) }
{
    match words.split_first() {
        Some((first, _)) => first.at,
        None => Pos { line: 0, col: 0 },
    }
}

/// This keyword.
#[tactic(auto, using(crate::proofs::Keys::key_laws))]
pub fn key<'a>(words: &'a [Word], keyword: &[u8]) -> Result<&'a [Word], ReadError>
    ensures { Gives (λ r. (tt, tokens_of r.now)) result (one (tests.is_key keyword.now) (tokens_of words.now)) }
{
    let Some((first, rest)) = words.split_first() else {
        return Err(expected(0));
    };
    if is_key(first, keyword) {
        Ok(rest)
    } else {
        Err(expected(words.len()))
    }
}

/// The end of a statement.
#[tactic(auto, using(crate::proofs::Keys::key_laws))]
pub fn end(words: &[Word]) -> Result<&[Word], ReadError>
    ensures { Gives (λ r. (tt, tokens_of r.now)) result (one heads.is_over (tokens_of words.now)) }
{
    let Some((first, rest)) = words.split_first() else {
        return Err(expected(0));
    };
    if matches!(first.kind, WordKind::End) {
        Ok(rest)
    } else {
        Err(expected(words.len()))
    }
}

/// A value behind which the statement ends.
pub fn ended<'a, T: Drop>(value: T, words: &'a [Word]) -> Result<(T, &'a [Word]), ReadError>
    ensures kept { IfOk result (λ r. r.0 ≡ value) }
    ensures reads { Gives (λ r. (tt, tokens_of r.1.now)) result (one heads.is_over (tokens_of words.now)) }
{
    match end(words) {
        Ok(rest) => Ok((value, rest)),
        Err(e) => {
            drop(value);
            Err(e)
        }
    }
}

/// A value behind which this sign stands.
#[tactic(auto, using(crate::proofs::Keys::key_laws))]
pub fn closed<'a, T: Drop>(
    value: T,
    words: &'a [Word],
    closer: Sign,
) -> Result<(T, &'a [Word]), ReadError>
    ensures kept { IfOk result (λ r. r.0 ≡ value) }
    ensures reads { Gives (λ r. (tt, tokens_of r.1.now)) result (one (tests.is_sign closer) (tokens_of words.now)) }
{
    match sign(words, closer) {
        Ok((_, rest)) => Ok((value, rest)),
        Err(e) => {
            drop(value);
            Err(e)
        }
    }
}

/// A name, where one stands.
#[tactic(auto, using(crate::proofs::Keys::key_laws))]
pub fn maybe_name(words: &[Word]) -> Result<(Option<Name>, &[Word]), ReadError>
    ensures { Gives (λ r. (r.0, tokens_of r.1.now)) result (optional tests.is_word tests.a_name (tokens_of words.now)) }
{
    if !begins_with_name(words) {
        return Ok((None, words));
    }
    let (name, rest) = name(words)?;
    Ok((Some(name), rest))
}

/// Two keywords, or both as one word.
#[tactic(auto, using(crate::proofs::Keys::key_laws))]
pub fn joined<'a>(
    words: &'a [Word],
    both: &[u8],
    one: &[u8],
    two: &[u8],
) -> Result<&'a [Word], ReadError>
    requires { both.now ≡ one.now ++ two.now }
    ensures { Gives (λ r. (tt, tokens_of r.now)) result (heads.a_joined one.now two.now 0 (tokens_of words.now)) }
{
    if begins_with_key(words, both) {
        return key(words, both);
    }
    let rest = key(words, one)?;
    key(rest, two)
}

/// Two keywords, or both as one word, and where they stand.
#[tactic(auto, using(crate::proofs::Keys::key_laws))]
pub fn joined_at<'a>(
    words: &'a [Word],
    both: &[u8],
    one: &[u8],
    two: &[u8],
) -> Result<(Pos, &'a [Word]), ReadError>
    requires { both.now ≡ one.now ++ two.now }
    ensures { Gives (λ r. ((r.0, tt), tokens_of r.1.now)) result (heads.a_joined_at one.now two.now 0 (tokens_of words.now)) }
{
    let at = place(words);
    let rest = joined(words, both, one, two)?;
    Ok((at, rest))
}

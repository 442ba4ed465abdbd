//! The words of statements, one behind the other.

ghost use Rattle.std.specs.Prelude.{◌≡◌, ◌<◌, ◌++◌, List, length, map, All, slice_get, IfOk, OnOk, IfErr};
ghost use Rattle.std.specs.List.{AllByRecursion};
ghost use Rattle.fortran_lines.specs.Causes.{IfCause};
ghost use Rattle.fortran_tokens.specs.Tokens.{AreTokens};
ghost use Rattle.fortran_grammar.specs.Tokens.{Token as Seen};
ghost use Rattle.expr_reader.specs.Plain.{plain};
ghost use Rattle.expr_reader.specs.Words.{token_of, tokens_of};
ghost use Rattle.token_words.specs.Words as spec;

use crate::kind::kind_of;
use caf_base::place::Pos;
use caf_base::refusal::{NoMemory, Refusal};
use expr_reader::word::{Word, WordKind};
use fortran_lines::stmt::Stmt;
use fortran_tokens::fault::TokenFault;
use fortran_tokens::statement::tokens;
use fortran_tokens::token::Token;
use std::alloc::Global;

/// Just past a byte.
fn just_past(at: Pos) -> Pos
    ensures { result ≡ spec.just_past at }
{
    Pos {
        line: at.line,
        col: at.col.saturating_add(1),
    }
}

/// What a token of a text stands for.
fn word(alloc: Global, text: &[u8], token: &Token) -> Result<Word, NoMemory>
    requires { spec.Fits text.now token.now }
    ensures { IfOk result (λ word. token_of word ≡ plain text.now token.now) }
{
    let bytes = &text[token.from as usize..token.to as usize];
    Ok(Word {
        kind: kind_of(alloc, token.kind, bytes)?,
        at: token.at,
    })
}

/// Adds what the tokens of a text stand for.
fn push_tokens(
    alloc: Global,
    words: &mut Vec<Word>,
    text: &[u8],
    tokens: &[Token],
) -> Result<(), NoMemory>
    requires { AllByRecursion (spec.Fits text.now) tokens.now }
    ensures { OnOk result (tokens_of words.new.items ≡ tokens_of words.old.items ++ map (plain text.now) tokens.now) }
{
    let mut left = tokens;
    while let Some((token, rest)) = left.split_first() {
        words.push(word(alloc, text, token)?)?;
        left = rest;
    }
    Ok(())
}

/// The place of a byte.
fn place_at(places: &[Pos], index: usize) -> Pos
    requires { index < length places.now }
    ensures { slice_get places.now index ≡ Some result }
{
    places[index]
}

/// Adds what a statement with these tokens stands for.
fn push_statement(
    alloc: Global,
    words: &mut Vec<Word>,
    stmt: &Stmt,
    tokens: &[Token],
) -> Result<(), NoMemory>
    requires { AreTokens stmt.now tokens.now }
    ensures { OnOk result ((us : List Seen) × spec.AreSeen stmt.now tokens.now us × (tokens_of words.new.items ≡ tokens_of words.old.items ++ us)) }
{
    let Some(last) = tokens.last() else {
        return Ok(());
    };
    let index = last.to as usize - 1;
    let end = place_at(stmt.at.as_slice(), index);
    push_tokens(alloc, words, stmt.text.as_slice(), tokens)?;
    words.push(Word {
        kind: WordKind::End,
        at: just_past(end),
    })?;
    Ok(())
}

/// What the statements of a source stand for in the grammar. A refusal is that of the first statement that can't be cut
/// into tokens; want of memory may come at any time.
pub fn words(alloc: Global, stmts: &[Stmt]) -> Result<Vec<Word>, Refusal<TokenFault>>
    requires { All (λ s. length s.text < 4294967295) stmts.now }
    ensures words { IfOk result (λ words. spec.AreWords stmts.now (tokens_of words.items)) }
    ensures refused { IfErr result (λ refusal. IfCause refusal (λ fault. spec.IsFirstRefused stmts.now fault)) }
{
    let mut words = Vec::new(alloc);
    for stmt in stmts {
        let tokens = match tokens(alloc, stmt) {
            Ok(tokens) => tokens,
            Err(refusal) => {
                drop(words);
                return Err(refusal);
            }
        };
        push_statement(alloc, &mut words, stmt, tokens.as_slice())?;
    }
    Ok(words)
}

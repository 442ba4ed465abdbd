//! What tokens are, and what they can do in an expression (ISO/IEC 1539-1:2018, 10.1).

ghost use Rattle.std.specs.Prelude.{◌≡◌};
ghost use Rattle.expr_reader.specs.Full as full;
ghost use Rattle.expr_reader.specs.Openings as spec;
ghost use Rattle.expr_reader.specs.Tests as tests;
ghost use Rattle.expr_reader.specs.Words.{token_of};
ghost use Rattle.fortran_grammar.specs.ExpressionGrammar as grammar;

use crate::word::{Word, WordKind};
use fortran_tokens::token::Sign;
use fortran_tree::expr::{Operator, PrefixOperator};

/// The operator between two operands that a sign is.
fn operator_for(sign: Sign) -> Option<Operator>
    ensures { result ≡ spec.operator_for sign }
{
    match sign {
        Sign::Power => Some(Operator::Power),
        Sign::Star => Some(Operator::Multiply),
        Sign::Slash => Some(Operator::Divide),
        Sign::Plus => Some(Operator::Add),
        Sign::Minus => Some(Operator::Subtract),
        Sign::Equal => Some(Operator::Equal),
        Sign::NotEqual => Some(Operator::NotEqual),
        Sign::Less => Some(Operator::Less),
        Sign::LessEqual => Some(Operator::LessEqual),
        Sign::Greater => Some(Operator::Greater),
        Sign::GreaterEqual => Some(Operator::GreaterEqual),
        Sign::And => Some(Operator::And),
        Sign::Or => Some(Operator::Or),
        Sign::Eqv => Some(Operator::Eqv),
        Sign::Neqv => Some(Operator::Neqv),
        _ => None,
    }
}

/// The operator between two operands that a token is.
pub fn operator_of(word: &Word) -> Operator
    ensures { result ≡ spec.operator_of (token_of word.now) }
{
    match word.kind {
        WordKind::Fixed(sign) => match operator_for(sign) {
            Some(operator) => operator,
            None => Operator::Add,
        },
        _ => Operator::Add,
    }
}

/// The operator before one operand that a token is.
pub fn prefix_of(word: &Word) -> PrefixOperator
    ensures { result ≡ spec.prefix_of (token_of word.now) }
{
    match word.kind {
        WordKind::Fixed(Sign::Plus) => PrefixOperator::Plus,
        WordKind::Fixed(Sign::Minus) => PrefixOperator::Minus,
        _ => PrefixOperator::Not,
    }
}

/// How tightly an operator binds, from 1 (10.1.3, Table 10.1).
fn strength(operator: Operator) -> u8
    ensures { result ≡ grammar.strength operator }
{
    match operator {
        Operator::Eqv | Operator::Neqv => 1,
        Operator::Or => 2,
        Operator::And => 3,
        Operator::Equal
        | Operator::NotEqual
        | Operator::Less
        | Operator::LessEqual
        | Operator::Greater
        | Operator::GreaterEqual => 5,
        Operator::Add | Operator::Subtract => 6,
        Operator::Multiply | Operator::Divide => 7,
        Operator::Power => 8,
    }
}

fn opener_grip(sign: Sign) -> u8
    ensures { result ≡ spec.opener_grip sign }
{
    match sign {
        Sign::OpenRound | Sign::OpenSquare | Sign::OpenArray => 9,
        _ => 0,
    }
}

/// The token is an operator that binds so.
pub fn binds(strong: u8, word: &Word) -> bool
    ensures { result ≡ spec.binds strong (token_of word.now) }
{
    let grip = match word.kind {
        WordKind::Fixed(sign) => match operator_for(sign) {
            Some(operator) => strength(operator),
            None => opener_grip(sign),
        },
        _ => 0,
    };
    grip == strong
}

fn sign_opening(sign: Sign) -> u8
    ensures { result ≡ spec.sign_opening sign }
{
    match sign {
        Sign::True | Sign::False | Sign::OpenRound | Sign::OpenSquare | Sign::OpenArray => 9,
        Sign::Plus | Sign::Minus => 6,
        Sign::Not => 4,
        _ => 0,
    }
}

fn opening(word: &Word) -> u8
    ensures { result ≡ spec.opening (token_of word.now).tok }
{
    match word.kind {
        WordKind::Name(_) | WordKind::Integer { .. } => 9,
        WordKind::Literal(_) | WordKind::End => 0,
        WordKind::Fixed(sign) => sign_opening(sign),
    }
}

/// The token begins an expression that binds at least so tightly.
pub fn opens(strong: u8, word: &Word) -> bool
    ensures { result ≡ spec.opens strong (token_of word.now) }
{
    strong <= opening(word)
}

/// The token is an operator before an operand that binds so.
pub fn prefixed(strong: u8, word: &Word) -> bool
    ensures { result ≡ spec.prefixed strong (token_of word.now) }
{
    opening(word) == strong
}

/// The token is this sign.
#[tactic(auto, using(crate::proofs::Phrases::sign_laws))]
pub fn is_sign(word: &Word, sign: Sign) -> bool
    ensures { result ≡ tests.is_sign sign (token_of word.now) }
{
    match word.kind {
        WordKind::Fixed(other) => other == sign,
        _ => false,
    }
}

/// The token is a name or a keyword.
pub fn is_name(word: &Word) -> bool
    ensures { result ≡ tests.is_word (token_of word.now) }
{
    matches!(word.kind, WordKind::Name(_))
}

/// The token is a logical literal.
pub fn is_truth(word: &Word) -> bool
    ensures { result ≡ full.is_truth (token_of word.now) }
{
    matches!(word.kind, WordKind::Fixed(Sign::True | Sign::False))
}

/// The token is `.true.`.
pub fn truth(word: &Word) -> bool
    ensures { result ≡ full.truth_tok (token_of word.now).tok }
{
    matches!(word.kind, WordKind::Fixed(Sign::True))
}

/// The token is a square bracket that opens, in either spelling.
pub fn is_square(word: &Word) -> bool
    ensures { result ≡ full.is_square (token_of word.now) }
{
    matches!(
        word.kind,
        WordKind::Fixed(Sign::OpenSquare | Sign::OpenArray)
    )
}

/// The token is an integer literal.
pub fn is_integer(word: &Word) -> bool
    ensures { result ≡ full.is_integer (token_of word.now) }
{
    matches!(word.kind, WordKind::Integer { .. })
}

//! Numbers that steps name: forms of subscripts, counts of cosubscripts, sizes of places.

ghost use Rattle.std.specs.Prelude.{◌≡◌, ◌+◌, ◌*◌, ◌≤◌, IfOk};
ghost use Rattle.checked_tree.specs.ExpressionViews as view;
ghost use Rattle.image_acts.specs.Places as place;
ghost use Rattle.tree_meaning.specs.Expressions as meaning;

use caf_base::refusal::NoMemory;
use checked_tree::expr::{Subscript, TypedExpr};

/// Whether a designator with these subscripts is a scalar variable as a whole.
pub fn is_scalar(subscripts: &[Subscript], rank: u32) -> bool
    ensures { result ≡ meaning.is_scalar (view.subscripts subscripts.now) rank }
{
    match subscripts {
        [] => rank == 0,
        [_first, _rest @ ..] => false,
    }
}

/// How many numbers a place of this rank is.
pub fn place_size(rank: u32) -> Result<u32, NoMemory>
    ensures { IfOk result (λ n. n ≡ place.place_size rank) }
{
    next_digit(1, rank, 2)
}

/// How many expressions there are.
#[tactic(auto, using(crate::proofs::Pieces::counted))]
pub fn count_of(exprs: &[TypedExpr]) -> Result<u32, NoMemory>
    ensures { IfOk result (λ n. n ≡ meaning.count_of (view.expressions exprs.now)) }
{
    let n = exprs.len();
    if n > 4294967295 {
        return Err(NoMemory);
    }
    Ok(n as u32)
}

/// The form of subscripts: a digit for each, the first one's last; a whole array is the section of all its elements. A
/// form beyond 32 bits is no form of a program.
pub fn form_of(subscripts: &[Subscript], rank: u32) -> Result<u32, NoMemory>
    ensures { IfOk result (λ n. n ≡ meaning.form_of (view.subscripts subscripts.now) rank) }
{
    match subscripts {
        [] => whole_form(rank),
        [_first, _rest @ ..] => digits_of(subscripts),
    }
}

/// The form of subscripts that are all single.
pub fn element_form(subscripts: &[TypedExpr]) -> Result<u32, NoMemory>
    ensures { IfOk result (λ n. n ≡ meaning.element_form (view.expressions subscripts.now)) }
{
    match subscripts {
        [] => Ok(0),
        [_first, rest @ ..] => next_digit(1, element_form(rest)?, 10),
    }
}

// The form of a whole array.
#[tactic(auto, using(crate::proofs::Pieces::whole_form_next))]
fn whole_form(rank: u32) -> Result<u32, NoMemory>
    ensures { IfOk result (λ n. n ≡ meaning.whole_form rank) }
{
    let mut form = 0;
    for _dimension in 0..rank {
        form = next_digit(2, form, 10)?;
    }
    Ok(form)
}

fn digits_of(subscripts: &[Subscript]) -> Result<u32, NoMemory>
    ensures { IfOk result (λ n. n ≡ meaning.digits_of (view.subscripts subscripts.now)) }
{
    match subscripts {
        [] => Ok(0),
        [subscript, rest @ ..] => next_digit(digit_of(subscript), digits_of(rest)?, 10),
    }
}

#[tactic(auto, using(crate::proofs::Forms::laws))]
fn digit_of(subscript: &Subscript) -> u32
    ensures is { result ≡ meaning.digit_of (view.subscript subscript.now) }
    ensures small { result ≤ 9 }
{
    match subscript {
        Subscript::Element(_) => 1,
        Subscript::Triplet {
            lower,
            upper,
            stride,
        } => 2 + one_if(1, lower) + one_if(2, upper) + one_if(4, stride),
    }
}

// This number where the part is there.
fn one_if(n: u32, part: &Option<Box<TypedExpr>>) -> u32
    ensures is { result ≡ meaning.one_if n (view.optional_expression part.now) }
    ensures small { result ≤ n }
{
    match part {
        Some(_) => n,
        None => 0,
    }
}

/// A digit before others, if the whole is a number of 32 bits.
pub fn next_digit(digit: u32, rest: u32, base: u32) -> Result<u32, NoMemory>
    ensures { IfOk result (λ n. n ≡ digit + (base * rest)) }
{
    let Some(product) = base.checked_mul(rest) else {
        return Err(NoMemory);
    };
    match digit.checked_add(product) {
        Some(n) => Ok(n),
        None => Err(NoMemory),
    }
}

/// A sum, if it is one of 32 bits.
pub fn sum(m: u32, n: u32) -> Result<u32, NoMemory>
    ensures { IfOk result (λ k. k ≡ m + n) }
{
    match m.checked_add(n) {
        Some(k) => Ok(k),
        None => Err(NoMemory),
    }
}

/// A number of items, if it is one of 32 bits.
pub fn narrow(n: usize) -> Result<u32, NoMemory>
    ensures { IfOk result (λ k. k ≡ n) }
{
    if n > 4294967295 {
        return Err(NoMemory);
    }
    Ok(n as u32)
}

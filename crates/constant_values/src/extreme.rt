//! MIN and MAX (ISO/IEC 1539-1:2018, 16.9.131 and 16.9.125).

ghost use Rattle.std.specs.Prelude.{◌≡◌, Some};
ghost use Rattle.caf_base.specs.declared.value.Value.TheVariants.{Int};
ghost use Rattle.rule_definitions.specs.Constants as rules;
ghost use Rattle.constant_values.specs.Views.{as_scalar};
ghost use Rattle.constant_values.specs.Extremes.{choice_of};

use caf_base::listing::Listing;
use caf_base::value::Value;

/// Which of two integers is taken.
#[derive(Clone, Copy)]
pub(crate) enum Choice {
    Lesser,
    Greater,
}

/// The least or the greatest of values that are known.
pub(crate) fn chosen_of(choice: Choice, values: Option<Listing<Value>>) -> Option<Value>
    ensures { as_scalar result ≡ rules.least_of (choice_of choice) values }
{
    match values {
        Some(values) => chosen_among(choice, values.as_slice()),
        None => None,
    }
}

// The same, of a list.
#[tactic(auto, using(crate::proofs::Lists::front_of))]
fn chosen_among(choice: Choice, values: &[Value]) -> Option<Value>
    ensures { as_scalar result ≡ rules.least_of (choice_of choice) (Some values.now) }
{
    let [first, rest @ ..] = values else {
        return None;
    };
    let mut best = Some(*first);
    for value in rest {
        best = better(choice, best, *value);
    }
    best
}

// The better one of two integers.
fn better(choice: Choice, best: Option<Value>, value: Value) -> Option<Value>
    ensures { as_scalar result ≡ rules.of_integers (choice_of choice) (as_scalar best) (rules.value value) }
{
    match (best, value) {
        (Some(Value::Int(best)), Value::Int(value)) => {
            Some(Value::Int(chosen_of_two(choice, best, value)))
        }
        (_, _) => None,
    }
}

fn chosen_of_two(choice: Choice, left: i64, right: i64) -> i64
    ensures { rules.value (Int result) ≡ choice_of choice left right }
{
    match choice {
        Choice::Lesser => { if left < right { left } else { right } }
        Choice::Greater => { if left < right { right } else { left } }
    }
}

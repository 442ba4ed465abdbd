//! Arguments and specifiers, judged, with their names (15.5.1, 9.6).

ghost use Rattle.std.specs.Prelude.{◌≡◌, IfOk};
ghost use Rattle.rule_definitions.specs.Expressions as rules;
ghost use Rattle.part_rules.specs.Brackets.{actual_seen};
ghost use Rattle.part_rules.specs.Views.{placed};
ghost use Rattle.specifier_rules.specs.Views.{written};
ghost use Rattle.expr_rules.specs.Chains.{argument_with, specifier_with};

use caf_base::place::Pos;
use caf_base::refusal::NoMemory;
use fortran_tree::name::Name;
use part_rules::bracket::{Actual, Item};
use part_rules::part::Part;
use specifier_rules::specifier::Specified;

/// A copy of a name with its place.
fn copied(name: &Name) -> Result<Name, NoMemory>
    ensures { IfOk result (λ n. n ≡ name.now) }
{
    Ok(Name {
        text: name.text.copy()?,
        at: name.at,
    })
}

/// A copy of a keyword, where one is written.
fn copied_keyword(keyword: &Option<Name>) -> Result<Option<Name>, NoMemory>
    ensures { IfOk result (λ k. k ≡ keyword.now) }
{
    match keyword {
        Some(name) => Ok(Some(copied(name)?)),
        None => Ok(None),
    }
}

/// The first token of an argument whose value stands at this place.
fn first_token(keyword: &Option<Name>, value_at: Pos) -> Pos
    ensures { result ≡ rules.first_token keyword.now value_at }
{
    match keyword {
        Some(name) => name.at,
        None => value_at,
    }
}

/// A judged argument with its keyword, where one is written.
pub fn with_keyword(keyword: &Option<Name>, part: Part) -> Result<Actual, NoMemory>
    ensures { IfOk result (λ a. actual_seen a ≡ argument_with keyword.now (placed part)) }
{
    let at = first_token(keyword, part.at);
    match copied_keyword(keyword) {
        Ok(keyword) => Ok(Actual {
            keyword,
            at,
            item: Item::Value(part),
        }),
        Err(e) => {
            drop(part);
            Err(e)
        }
    }
}

/// A judged value with the name of its specifier.
pub fn with_name(name: &Name, value: Part) -> Result<Specified, NoMemory>
    ensures { IfOk result (λ s. written s ≡ specifier_with name.now (placed value)) }
{
    match copied(name) {
        Ok(name) => Ok(Specified { name, value }),
        Err(e) => {
            drop(value);
            Err(e)
        }
    }
}

//! Expressions of declarations that were judged.

ghost use Rattle.std.specs.Prelude.{◌≡◌};
ghost use Rattle.std.specs.Option.{option_map};
ghost use Rattle.rule_definitions.specs.Judgements.{first_of, is_nothing};
ghost use Rattle.declaration_rules.specs.Asked.{asked, worth, plain_worth, constant_worth, is_list_known};

use caf_base::place::Pos;
use checked_tree::data::DataType;
use constant_values::constancy::Constancy;
use rule_definitions::broken::Broken;
use rule_definitions::rule;
use scope_table::broken::note;

/// An expression in which nothing is broken: its type, what it stands for before the run, and whether it is a list of
/// images.
#[derive(Drop)]
pub struct Valued {
    pub of_type: DataType,
    pub is_list: bool,
    pub constancy: Constancy,
}

/// An expression: the rules that are broken in it, what it is where none is, whether it is no constant expression
/// whatever values its parts have (ISO/IEC 1539-1:2018, 10.1.12), and its place.
#[derive(Drop)]
pub struct Asked {
    pub breaks: Vec<Broken>,
    pub value: Option<Valued>,
    pub lacks_value: bool,
    pub at: Pos,
}

/// Notes broken rules.
pub fn note_all(first: &mut Option<Broken>, breaks: &[Broken])
    ensures { first.new ≡ first_of first.old breaks.now }
{
    for broken in breaks {
        note(first, broken.rule, broken.at);
    }
}

/// Whether a list of images is known.
fn is_list(value: &Option<Valued>) -> bool
    ensures { result ≡ is_list_known (option_map worth value.now) }
{
    match value {
        Some(value) => value.is_list,
        None => false,
    }
}

/// Whether nothing is broken in an expression, nor by its being a list of images.
pub fn is_clean(expr: &Asked) -> bool
    ensures { result ≡ is_nothing (plain_worth (asked expr.now)).breaks }
{
    if !expr.breaks.is_empty() {
        return false;
    }
    !is_list(&expr.value)
}

/// An expression that may be no list of images.
#[tactic(auto, using(scope_table::proofs::First::first_of_both))]
pub fn plain_value<'a>(first: &mut Option<Broken>, expr: &'a Asked) -> Option<&'a Valued>
    ensures first { first.new ≡ first_of first.old (plain_worth (asked expr.now)).breaks }
    ensures value { option_map (λ v. worth v.now) result ≡ (plain_worth (asked expr.now)).meaning }
{
    note_all(first, expr.breaks.as_slice());
    let value = expr.value.as_ref()?;
    if value.is_list {
        note(first, rule::IMAGE_LIST, expr.at);
        return None;
    }
    Some(value)
}

/// An expression that must be constant, before the rule on its value: this rule where it has none.
#[tactic(auto, using(scope_table::proofs::First::first_of_both))]
pub fn constant_value<'a>(
    first: &mut Option<Broken>,
    rule: u8,
    expr: &'a Asked,
) -> Option<&'a Valued>
    ensures first { first.new ≡ first_of first.old (constant_worth rule (asked expr.now)).breaks }
    ensures value { option_map (λ v. worth v.now) result ≡ (constant_worth rule (asked expr.now)).meaning }
{
    if !expr.lacks_value {
        return plain_value(first, expr);
    }
    note_all(first, expr.breaks.as_slice());
    if expr.breaks.is_empty() {
        note(first, rule, expr.at);
    }
    None
}

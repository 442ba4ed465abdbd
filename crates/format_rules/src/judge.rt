//! The rule on formats, judged.

ghost use Rattle.std.specs.Prelude.{◌≡◌, None, cond, IfOk};
ghost use Rattle.std.specs.Option.{option_map};
ghost use Rattle.rule_definitions.specs.Judgements.{breaks, is_nothing};
ghost use Rattle.rule_definitions.specs.Formats as rules;
ghost use Rattle.format_rules.specs.Views.{list_of};

use crate::format::descriptors;
use caf_base::place::Pos;
use caf_base::refusal::NoMemory;
use checked_tree::format::Descriptor;
use rule_definitions::broken::Broken;
use rule_definitions::rule;
use std::alloc::Global;

/// What is found of a format: the rules that are broken in it, and its items in order, nothing where one is broken.
#[derive(Drop)]
pub struct JudgedFormat {
    pub breaks: Vec<Broken>,
    pub meaning: Option<Vec<Descriptor>>,
}

/// Whether an item takes a value (13.3).
fn is_data(item: &Descriptor) -> bool
    ensures { result ≡ rules.is_data item.now }
{
    match item {
        Descriptor::Integer { .. } | Descriptor::Logical { .. } | Descriptor::Character => true,
        Descriptor::Skip { .. } | Descriptor::Literal(_) => false,
    }
}

/// Whether an item takes a value.
fn has_data(items: &[Descriptor]) -> bool
    ensures { result ≡ rules.has_data items.now }
{
    let mut left = items;
    while let Some((first, rest)) = left.split_first() {
        if is_data(first) {
            return true;
        }
        left = rest;
    }
    false
}

/// A format that breaks rule 57 here.
fn refused(alloc: Global, at: Pos) -> Result<JudgedFormat, NoMemory>
    ensures breaks { IfOk result (λ j. j.breaks.items ≡ breaks 57 at) }
    ensures meaning { IfOk result (λ j. j.meaning ≡ None) }
{
    let mut breaks = Vec::new(alloc);
    breaks.push(Broken {
        rule: rule::FORMAT,
        at,
    })?;
    Ok(JudgedFormat {
        breaks,
        meaning: None,
    })
}

/// The format at this place: rule 57 where it is none, or has no data descriptor though there are values (13.3, 13.4).
pub fn judge_format(
    alloc: Global,
    text: &[u8],
    has_values: bool,
    at: Pos,
) -> Result<JudgedFormat, NoMemory>
    ensures breaks { IfOk result (λ j. j.breaks.items ≡ rules.format_breaks (rules.descriptors text.now) has_values at) }
    ensures meaning { IfOk result (λ j. option_map list_of j.meaning ≡ cond (is_nothing (rules.format_breaks (rules.descriptors text.now) has_values at)) (rules.descriptors text.now) None) }
{
    let Some(items) = descriptors(alloc, text)? else {
        return refused(alloc, at);
    };
    if has_values && !has_data(items.as_slice()) {
        return refused(alloc, at);
    }
    Ok(JudgedFormat {
        breaks: Vec::new(alloc),
        meaning: Some(items),
    })
}

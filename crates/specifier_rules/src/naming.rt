//! The names of specifiers in a statement (9.6, 9.7.1.1, 11.6.11): rule 35, and the order in which two are written.

ghost use Rattle.std.specs.Prelude.{◌≡◌, ◌++◌, ◌||◌, ◌&&◌, not, OnOk, [], map};
ghost use Rattle.rule_definitions.specs.Judgements.{is_there};
ghost use Rattle.rule_definitions.specs.Names.{is_among as is_listed};
ghost use Rattle.rule_definitions.specs.Specifiers as rules;
ghost use Rattle.rule_definitions.specs.Specifiers.{value_named};
ghost use Rattle.specifier_rules.specs.Values.{seen_behind, text};
ghost use Rattle.specifier_rules.specs.Views.{written};
ghost use Rattle.specifier_rules.specs.Clashes.{any_clash};

use crate::specifier::Specified;
use caf_base::refusal::NoMemory;
use checked_tree::expr::WrittenOrder;
use part_rules::judged::note_unless;
use part_rules::part::is_plain;
use rule_definitions::broken::Broken;
use rule_definitions::rule;

/// Whether a name is among these.
fn is_among(names: &[&[u8]], name: &[u8]) -> bool
    ensures { result ≡ is_listed (map text names.now) name.now }
{
    for other in names {
        if *other == name {
            return true;
        }
    }
    false
}

/// Whether a name is TEAM or TEAM_NUMBER.
fn names_team(name: &[u8]) -> bool
    ensures { result ≡ rules.is_team_name name.now }
{
    name == b"team".as_slice() || name == b"team_number".as_slice()
}

/// Whether a name is that of one of these, or names a team as one of these does.
fn clashes(earlier: &[Specified], name: &[u8]) -> bool
    ensures { result ≡ any_clash name.now (map written earlier.now) }
{
    for other in earlier {
        let known = other.name.text.as_slice();
        if known == name {
            return true;
        }
        if names_team(name) && names_team(known) {
            return true;
        }
    }
    false
}

/// Whether a specifier of this name may stand behind the earlier ones.
fn may_stand(allowed: &[&[u8]], earlier: &[Specified], name: &[u8]) -> bool
    ensures { result ≡ (is_listed (map text allowed.now) name.now && not (any_clash name.now (map written earlier.now))) }
{
    is_among(allowed, name) && !clashes(earlier, name)
}

/// The rule on the name of a specifier behind the earlier ones: nothing is said after a break in its value.
#[tactic(auto, using(crate::proofs::Clashes::repeated_by_clash))]
fn name_rule(
    breaks: &mut Vec<Broken>,
    allowed: &[&[u8]],
    earlier: &[Specified],
    next: &Specified,
) -> Result<(), NoMemory>
    ensures { OnOk result (breaks.new.items ≡ breaks.old.items ++ rules.name_breaks (map text allowed.now) (seen_behind [] (map written earlier.now)) (written next.now)) }
{
    if !is_plain(&next.value) {
        return Ok(());
    }
    let holds = may_stand(allowed, earlier, next.name.text.as_slice());
    note_unless(breaks, holds, rule::SPECIFIER, next.name.at)
}

/// The rule on the names of specifiers: one that isn't allowed, one twice, or both TEAM= and TEAM_NUMBER=.
pub fn name_rules(
    breaks: &mut Vec<Broken>,
    allowed: &[&[u8]],
    specified: &[Specified],
) -> Result<(), NoMemory>
    ensures { OnOk result (breaks.new.items ≡ breaks.old.items ++ rules.specifier_breaks (map text allowed.now) [] (map written specified.now)) }
{
    for index in 0..specified.len() {
        name_rule(breaks, allowed, &specified[..index], &specified[index])?;
    }
    Ok(())
}

/// Whether a specifier of this name is written.
fn is_written(name: &[u8], specified: &[Specified]) -> bool
    ensures { result ≡ is_there (value_named name.now (map written specified.now)) }
{
    for next in specified {
        if next.name.text.as_slice() == name {
            return true;
        }
    }
    false
}

/// Whether two specifiers are written, one of the first name before the first one of the other.
fn stands_first(one: &[u8], other: &[u8], specified: &[Specified]) -> bool
    ensures { result ≡ rules.stands_first one.now other.now (map written specified.now) }
{
    let mut left = specified;
    while let [next, rest @ ..] = left {
        let name = next.name.text.as_slice();
        if name == one {
            return is_written(other, rest);
        }
        if name == other {
            return false;
        }
        left = rest;
    }
    false
}

/// The order in which two specifiers are written.
pub fn order_written(one: &[u8], other: &[u8], specified: &[Specified]) -> WrittenOrder
    ensures { result ≡ rules.order_written one.now other.now (map written specified.now) }
{
    if stands_first(other, one, specified) {
        WrittenOrder::Reversed
    } else {
        WrittenOrder::Same
    }
}

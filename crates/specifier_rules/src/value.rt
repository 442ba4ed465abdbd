//! The values of specifiers, each under the rule of its name: rule 36 for STAT= and ACQUIRED_LOCK=, rule 51 for TEAM=,
//! rule 39 for the numbers.

ghost use Rattle.std.specs.Prelude.{◌≡◌, ◌++◌, IfOk, OnOk, [], map};
ghost use Rattle.rule_definitions.specs.Specifiers.{all_breaks, value_breaks, values_breaks};
ghost use Rattle.specifier_rules.specs.Values.{put as put_value, text, values_named, with_value};
ghost use Rattle.specifier_rules.specs.Views.{values_seen, written};

use crate::condition::team;
use crate::keyword::{Keyword, keyword_named};
use crate::naming::name_rules;
use crate::result::result_variable;
use crate::specifier::Specified;
use caf_base::refusal::NoMemory;
use checked_tree::expr::{ResultVariable, TypedExpr};
use part_rules::judged::{Judged, add_all};
use part_rules::operand::integer;
use part_rules::part::plain;
use rule_definitions::broken::Broken;
use rule_definitions::rule;
use rule_definitions::taken::Taken;
use std::alloc::Global;

/// What the specifiers of a statement stand for. In each there is nothing where it isn't written; there is no meaning
/// where its value breaks a rule.
#[derive(Drop)]
pub struct Values {
    pub stat: Option<Option<ResultVariable>>,
    pub acquired_lock: Option<Option<ResultVariable>>,
    pub team: Option<Option<TypedExpr>>,
    pub team_number: Option<Option<TypedExpr>>,
    pub new_index: Option<Option<TypedExpr>>,
    pub until_count: Option<Option<TypedExpr>>,
}

/// Puts a further value of a specifier, of which the first one stands.
fn put<T: Drop>(slot: &mut Option<Option<T>>, value: Option<T>)
    ensures { slot.new ≡ put_value slot.old value }
{
    match slot {
        Some(None) => {
            *slot = match value {
                Some(value) => Some(Some(value)),
                None => None,
            };
        }
        Some(Some(_)) | None => drop(value),
    }
}

/// Takes a value of a specifier with what breaks in it.
fn take<T: Drop>(
    breaks: &mut Vec<Broken>,
    slot: &mut Option<Option<T>>,
    value: Judged<T>,
) -> Result<(), NoMemory>
    ensures breaks { OnOk result (breaks.new.items ≡ breaks.old.items ++ value.breaks.items) }
    ensures slot { OnOk result (slot.new ≡ put_value slot.old value.meaning) }
{
    let Judged {
        breaks: further,
        meaning,
    } = value;
    put(slot, meaning);
    add_all(breaks, further)
}

/// Takes a further specifier.
#[tactic(auto, using(crate::proofs::Words::value_by_keyword, crate::proofs::Puts::put_seen))]
fn take_value(
    alloc: Global,
    breaks: &mut Vec<Broken>,
    values: &mut Values,
    next: Specified,
) -> Result<(), NoMemory>
    ensures breaks { OnOk result (breaks.new.items ≡ breaks.old.items ++ value_breaks (written next)) }
    ensures values { OnOk result (values_seen values.new ≡ with_value (values_seen values.old) (written next)) }
{
    let Specified { name, value } = next;
    let keyword = keyword_named(name.text.as_slice());
    drop(name);
    match keyword {
        Some(Keyword::Stat) => {
            let value = result_variable(alloc, Taken::Integers, value)?;
            take(breaks, &mut values.stat, value)
        }
        Some(Keyword::AcquiredLock) => {
            let value = result_variable(alloc, Taken::Logicals, value)?;
            take(breaks, &mut values.acquired_lock, value)
        }
        Some(Keyword::Team) => {
            let value = team(value)?;
            take(breaks, &mut values.team, value)
        }
        Some(Keyword::TeamNumber) => {
            let value = integer(rule::CONDITION, value)?;
            take(breaks, &mut values.team_number, value)
        }
        Some(Keyword::NewIndex) => {
            let value = integer(rule::CONDITION, value)?;
            take(breaks, &mut values.new_index, value)
        }
        Some(Keyword::UntilCount) => {
            let value = integer(rule::CONDITION, value)?;
            take(breaks, &mut values.until_count, value)
        }
        None => {
            let Judged {
                breaks: further,
                meaning,
            } = plain(value)?;
            drop(meaning);
            add_all(breaks, further)
        }
    }
}

/// The values of specifiers, with what breaks in them.
fn values_of(
    alloc: Global,
    breaks: &mut Vec<Broken>,
    specified: Vec<Specified>,
) -> Result<Values, NoMemory>
    ensures breaks { OnOk result (breaks.new.items ≡ breaks.old.items ++ values_breaks (map written specified.items)) }
    ensures values { IfOk result (λ v. values_seen v ≡ values_named (map written specified.items)) }
{
    let mut values = Values {
        stat: Some(None),
        acquired_lock: Some(None),
        team: Some(None),
        team_number: Some(None),
        new_index: Some(None),
        until_count: Some(None),
    };
    for next in specified {
        take_value(alloc, breaks, &mut values, next)?;
    }
    Ok(values)
}

/// What breaks in the specifiers of a statement, and what each of them stands for.
#[derive(Drop)]
pub struct Meanings {
    pub breaks: Vec<Broken>,
    pub values: Values,
}

/// The specifiers of a statement that has those with these names: rule 35 for their names, then rules 36, 39 and 51 for
/// their values.
pub fn judge_specifiers(
    alloc: Global,
    allowed: &[&[u8]],
    specified: Vec<Specified>,
) -> Result<Meanings, NoMemory>
    ensures breaks { IfOk result (λ m. m.breaks.items ≡ all_breaks (map text allowed.now) (map written specified.items)) }
    ensures values { IfOk result (λ m. values_seen m.values ≡ values_named (map written specified.items)) }
{
    let mut breaks = Vec::new(alloc);
    name_rules(&mut breaks, allowed, specified.as_slice())?;
    let values = values_of(alloc, &mut breaks, specified)?;
    Ok(Meanings { breaks, values })
}

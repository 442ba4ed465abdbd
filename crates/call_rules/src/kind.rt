//! The kind that an argument gives (7.4.3.1).

ghost use Rattle.std.specs.Prelude.{◌≡◌, ◌++◌, IfOk, OnOk, map};
ghost use Rattle.rule_definitions.specs.IntrinsicFunctions as rules;
ghost use Rattle.rule_definitions.specs.Judgements.{ruled};
ghost use Rattle.rule_definitions.specs.Parts as parts;
ghost use Rattle.constant_values.specs.Views.{constancy as constancy_seen};
ghost use Rattle.part_rules.specs.Views.{placed};
ghost use Rattle.call_rules.specs.Bindings.{binding_seen};

use crate::binding::{Binding, take};
use caf_base::place::Pos;
use caf_base::refusal::NoMemory;
use caf_base::value::{Kind, Value};
use checked_tree::data::DataType;
use constant_values::constancy::Constancy;
use constant_values::value::value_of;
use part_rules::judged::{Judged, add_all, note_unless};
use part_rules::part::{Part, plain};
use part_rules::types::is_logical_type;
use rule_definitions::broken::Broken;
use rule_definitions::rule;
use scope_table::scope::Scope;
use std::alloc::Global;

/// The integer kind with this number.
fn integer_kind(number: i64) -> Option<Kind>
    ensures { result ≡ parts.integer_kind number }
{
    match number {
        4 => Some(Kind::I4),
        8 => Some(Kind::I8),
        _ => None,
    }
}

/// The integer kind with this number: rule 23 for another number.
fn supported(breaks: &mut Vec<Broken>, number: i64, at: Pos) -> Result<Option<Kind>, NoMemory>
    ensures breaks { OnOk result (breaks.new.items ≡ breaks.old.items ++ (parts.supported (parts.integer_kind number) at).breaks) }
    ensures meaning { IfOk result (λ k. k ≡ (parts.supported (parts.integer_kind number) at).meaning) }
{
    let kind = integer_kind(number);
    match kind {
        Some(_) => {}
        None => breaks.push(Broken {
            rule: rule::KIND,
            at,
        })?,
    }
    Ok(kind)
}

/// The integer kind that a value of this type gives: rule 22 where it isn't constant, rule 23 for a logical one and for
/// another number, rule 37 for an array.
fn kind_of(
    breaks: &mut Vec<Broken>,
    of_type: DataType,
    constancy: &Constancy,
    at: Pos,
) -> Result<Option<Kind>, NoMemory>
    ensures breaks { OnOk result (breaks.new.items ≡ breaks.old.items ++ (ruled (parts.kind_of_value parts.integer_kind (constancy_seen constancy.now) at) (parts.logical_array_breaks 23 of_type (constancy_seen constancy.now) at)).breaks) }
    ensures meaning { IfOk result (λ k. k ≡ (ruled (parts.kind_of_value parts.integer_kind (constancy_seen constancy.now) at) (parts.logical_array_breaks 23 of_type (constancy_seen constancy.now) at)).meaning) }
{
    match constancy {
        Constancy::Value(Value::Int(number)) => supported(breaks, *number, at),
        Constancy::Value(Value::Bool(_)) => {
            breaks.push(Broken {
                rule: rule::KIND,
                at,
            })?;
            Ok(None)
        }
        Constancy::Values { .. } => {
            breaks.push(Broken {
                rule: rule::ARRAY_FOR_SCALAR,
                at,
            })?;
            note_unless(breaks, !is_logical_type(of_type), rule::KIND, at)?;
            Ok(None)
        }
        Constancy::NoConstant => {
            breaks.push(Broken {
                rule: rule::INITIAL_VALUE,
                at,
            })?;
            Ok(None)
        }
    }
}

/// The integer kind that an expression gives.
pub fn kind_value(alloc: Global, scope: &Scope<'_>, part: Part) -> Result<Judged<Kind>, NoMemory>
    ensures breaks { IfOk result (λ j. j.breaks.items ≡ (parts.kind_value scope.now parts.integer_kind (placed part)).breaks) }
    ensures meaning { IfOk result (λ j. j.meaning ≡ (parts.kind_value scope.now parts.integer_kind (placed part)).meaning) }
{
    let at = part.at;
    let Judged {
        mut breaks,
        meaning,
    } = plain(part)?;
    let Some(value) = meaning else {
        return Ok(Judged {
            breaks,
            meaning: None,
        });
    };
    let constancy = value_of(alloc, scope, &value)?;
    let of_type = value.of_type;
    drop(value);
    let kind = kind_of(&mut breaks, of_type, &constancy, at)?;
    drop(constancy);
    Ok(Judged {
        breaks,
        meaning: kind,
    })
}

/// The kind of the second dummy, which is 4 where there is none.
pub fn kind_at(
    alloc: Global,
    scope: &Scope<'_>,
    breaks: &mut Vec<Broken>,
    bindings: &mut Vec<Binding>,
) -> Result<Option<Kind>, NoMemory>
    ensures breaks { OnOk result (breaks.new.items ≡ breaks.old.items ++ (rules.kind_argument scope.now (map binding_seen bindings.old.items) 1).breaks) }
    ensures meaning { IfOk result (λ k. k ≡ (rules.kind_argument scope.now (map binding_seen bindings.old.items) 1).meaning) }
{
    let Some(part) = take(bindings, 1) else {
        return Ok(Some(Kind::I4));
    };
    let Judged {
        breaks: own,
        meaning,
    } = kind_value(alloc, scope, part)?;
    add_all(breaks, own)?;
    Ok(meaning)
}

//! Integer literals of a kind that a name may give (7.4.3.1).

ghost use Rattle.std.specs.Prelude.{◌≡◌, IfOk};
ghost use Rattle.std.specs.Option.{option_map};
ghost use Rattle.checked_tree.specs.ExpressionViews.{expression};
ghost use Rattle.rule_definitions.specs.Parts as parts;
ghost use Rattle.scope_table.specs.Scopes.{denoted as meaning_of};
ghost use Rattle.scope_table.specs.Symbols.{constant_value};

use crate::judged::{Judged, fine, joined, refused, unknown};
use crate::literal::{literal, supported};
use caf_base::place::Pos;
use caf_base::refusal::NoMemory;
use caf_base::value::{Kind, Value};
use checked_tree::expr::TypedExpr;
use fortran_tree::expr::NumberKind;
use rule_definitions::rule;
use scope_table::scope::{Denoted, Scope};
use scope_table::symbol::ConstantValue;
use std::alloc::Global;

/// The kind that a constant gives to a literal (R709): rule 23 where it is none, rule 37 for an array.
fn kind_of_constant(alloc: Global, value: ConstantValue, at: Pos) -> Result<Judged<Kind>, NoMemory>
    ensures breaks { IfOk result (λ j. j.breaks.items ≡ (parts.kind_of_constant (constant_value value) at).breaks) }
    ensures meaning { IfOk result (λ j. j.meaning ≡ (parts.kind_of_constant (constant_value value) at).meaning) }
{
    match value {
        ConstantValue::Unknown => Ok(unknown(alloc)),
        ConstantValue::Scalar(Value::Int(number)) => supported(alloc, number, at),
        ConstantValue::Scalar(Value::Bool(_)) => refused(alloc, rule::KIND, at),
        ConstantValue::Array(_) => refused(alloc, rule::ARRAY_FOR_SCALAR, at),
    }
}

/// The kind that a name gives to a literal: rule 20 where it stands for nothing, rule 22 for what is no constant.
pub fn kind_denoted(
    alloc: Global,
    denoted: Option<Denoted<'_>>,
    at: Pos,
) -> Result<Judged<Kind>, NoMemory>
    ensures breaks { IfOk result (λ j. j.breaks.items ≡ (parts.kind_denoted (option_map meaning_of denoted.entry) at).breaks) }
    ensures meaning { IfOk result (λ j. j.meaning ≡ (parts.kind_denoted (option_map meaning_of denoted.entry) at).meaning) }
{
    let Some(denoted) = denoted else {
        return refused(alloc, rule::UNKNOWN_NAME, at);
    };
    match denoted {
        Denoted::ModuleConstant(number) => supported(alloc, number, at),
        Denoted::ModuleType(_) => refused(alloc, rule::UNKNOWN_NAME, at),
        Denoted::Constant(constant) => kind_of_constant(alloc, constant.value, at),
        Denoted::Variable(_)
        | Denoted::Subroutine(_)
        | Denoted::Function(_)
        | Denoted::IntrinsicFunction(_)
        | Denoted::IntrinsicSubroutine(_) => refused(alloc, rule::INITIAL_VALUE, at),
    }
}

/// The kind that is written behind a literal: 4 where none is.
fn kind_written(
    alloc: Global,
    scope: &Scope<'_>,
    kind: &NumberKind,
    at: Pos,
) -> Result<Judged<Kind>, NoMemory>
    ensures breaks { IfOk result (λ j. j.breaks.items ≡ (parts.kind_written scope.now kind.now at).breaks) }
    ensures meaning { IfOk result (λ j. j.meaning ≡ (parts.kind_written scope.now kind.now at).meaning) }
{
    match kind {
        NumberKind::Unstated | NumberKind::Four => Ok(fine(alloc, Kind::I4)),
        NumberKind::Eight => Ok(fine(alloc, Kind::I8)),
        NumberKind::Named(name) => kind_denoted(alloc, scope.denotes(name.as_slice()), at),
    }
}

/// An integer literal: rules 20, 22, 23 and 37 of its kind.
pub fn number(
    alloc: Global,
    scope: &Scope<'_>,
    kind: &NumberKind,
    value: u64,
    at: Pos,
) -> Result<Judged<TypedExpr>, NoMemory>
    ensures breaks { IfOk result (λ j. j.breaks.items ≡ (parts.number scope.now kind.now value at).breaks) }
    ensures meaning { IfOk result (λ j. option_map expression j.meaning ≡ (parts.number scope.now kind.now value at).meaning) }
{
    let Judged { breaks, meaning } = kind_written(alloc, scope, kind, at)?;
    let Some(kind) = meaning else {
        return Ok(Judged {
            breaks,
            meaning: None,
        });
    };
    let Judged {
        breaks: further,
        meaning,
    } = literal(alloc, value, at, kind)?;
    joined(breaks, further, meaning)
}

//! Calls of intrinsic subroutines (ISO/IEC 1539-1:2018, 16.9).

ghost use Rattle.std.specs.Prelude.{◌≡◌, OnOk};
ghost use Rattle.checked_tree.specs.ExpressionViews as view;
ghost use Rattle.checked_tree.specs.Statements as s;
ghost use Rattle.checked_tree.specs.StatementViews as statements;
ghost use Rattle.tree_meaning.specs.Subroutines as meaning;
ghost use Rattle.expr_code.specs.Drafts.{written};
ghost use Rattle.expr_code.specs.Environments.{environment};

use crate::argument::{ArgumentOf, written_dummies};
use crate::atomic::{AtomicCall, push_atomic, push_query};
use crate::collective::{push_broadcast, push_combine};
use caf_base::refusal::NoMemory;
use caf_base::value::{AtomicOp, Kind};
use caf_events::round::GatherOp;
use checked_tree::action::{
    AtomicChange, Collected, Combination, IntrinsicCall, IntrinsicSubroutine, WrittenArguments,
};
use checked_tree::expr::{Designator, ResultVariable, TypedExpr};
use expr_code::draft::Draft;
use expr_code::env::Env;

fn change_of(change: AtomicChange) -> AtomicOp
    ensures { result ≡ meaning.change_of change }
{
    match change {
        AtomicChange::Add => AtomicOp::Add,
        AtomicChange::And => AtomicOp::And,
        AtomicChange::Or => AtomicOp::Or,
        AtomicChange::Xor => AtomicOp::Xor,
    }
}

fn combination_of(combination: Combination) -> GatherOp
    ensures { result ≡ meaning.combination_of combination }
{
    match combination {
        Combination::Sum => GatherOp::Sum,
        Combination::Min => GatherOp::Min,
        Combination::Max => GatherOp::Max,
    }
}

fn push_define<'a>(
    draft: &mut Draft,
    env: &Env<'_>,
    atom: &'a Designator,
    kind: Kind,
    value: &'a TypedExpr,
    stat: &'a Option<ResultVariable>,
    order: &WrittenArguments,
    line: u32,
) -> Result<(), NoMemory>
    ensures { OnOk result (draft.new ≡ written line (meaning.intrinsic_call (environment env.now) (s.atomic_define (view.designator atom.now) kind (view.expression value.now) (view.maybe_result stat.now)) order.now) draft.old) }
{
    let arguments = [
        ArgumentOf::Cell(atom),
        ArgumentOf::Value(value),
        ArgumentOf::Stat(stat),
    ];
    let call = AtomicCall {
        atom,
        atom_dummy: 0,
        op: AtomicOp::Define,
        kind,
        first: Some(1),
        second: None,
        old: None,
        old_dummy: 0,
        stat,
        stat_dummy: 2,
    };
    push_atomic(draft, env, &arguments, written_dummies(order), &call, line)
}

fn push_ref<'a>(
    draft: &mut Draft,
    env: &Env<'_>,
    value: &'a ResultVariable,
    atom: &'a Designator,
    kind: Kind,
    stat: &'a Option<ResultVariable>,
    order: &WrittenArguments,
    line: u32,
) -> Result<(), NoMemory>
    ensures { OnOk result (draft.new ≡ written line (meaning.intrinsic_call (environment env.now) (s.atomic_ref (view.result_variable value.now) (view.designator atom.now) kind (view.maybe_result stat.now)) order.now) draft.old) }
{
    let arguments = [
        ArgumentOf::Result(value),
        ArgumentOf::Cell(atom),
        ArgumentOf::Stat(stat),
    ];
    let call = AtomicCall {
        atom,
        atom_dummy: 1,
        op: AtomicOp::Ref,
        kind,
        first: None,
        second: None,
        old: Some(value),
        old_dummy: 0,
        stat,
        stat_dummy: 2,
    };
    push_atomic(draft, env, &arguments, written_dummies(order), &call, line)
}

fn push_change<'a>(
    draft: &mut Draft,
    env: &Env<'_>,
    change: AtomicChange,
    atom: &'a Designator,
    value: &'a TypedExpr,
    stat: &'a Option<ResultVariable>,
    order: &WrittenArguments,
    line: u32,
) -> Result<(), NoMemory>
    ensures { OnOk result (draft.new ≡ written line (meaning.intrinsic_call (environment env.now) (s.atomic_change change (view.designator atom.now) (view.expression value.now) (view.maybe_result stat.now)) order.now) draft.old) }
{
    let arguments = [
        ArgumentOf::Cell(atom),
        ArgumentOf::Value(value),
        ArgumentOf::Stat(stat),
    ];
    let call = AtomicCall {
        atom,
        atom_dummy: 0,
        op: change_of(change),
        kind: Kind::I4,
        first: Some(1),
        second: None,
        old: None,
        old_dummy: 0,
        stat,
        stat_dummy: 2,
    };
    push_atomic(draft, env, &arguments, written_dummies(order), &call, line)
}

fn push_fetch<'a>(
    draft: &mut Draft,
    env: &Env<'_>,
    change: AtomicChange,
    atom: &'a Designator,
    value: &'a TypedExpr,
    old: &'a ResultVariable,
    stat: &'a Option<ResultVariable>,
    order: &WrittenArguments,
    line: u32,
) -> Result<(), NoMemory>
    ensures { OnOk result (draft.new ≡ written line (meaning.intrinsic_call (environment env.now) (s.atomic_fetch change (view.designator atom.now) (view.expression value.now) (view.result_variable old.now) (view.maybe_result stat.now)) order.now) draft.old) }
{
    let arguments = [
        ArgumentOf::Cell(atom),
        ArgumentOf::Value(value),
        ArgumentOf::Result(old),
        ArgumentOf::Stat(stat),
    ];
    let call = AtomicCall {
        atom,
        atom_dummy: 0,
        op: change_of(change),
        kind: Kind::I4,
        first: Some(1),
        second: None,
        old: Some(old),
        old_dummy: 2,
        stat,
        stat_dummy: 3,
    };
    push_atomic(draft, env, &arguments, written_dummies(order), &call, line)
}

fn push_cas<'a>(
    draft: &mut Draft,
    env: &Env<'_>,
    atom: &'a Designator,
    kind: Kind,
    old: &'a ResultVariable,
    compare: &'a TypedExpr,
    new: &'a TypedExpr,
    stat: &'a Option<ResultVariable>,
    order: &WrittenArguments,
    line: u32,
) -> Result<(), NoMemory>
    ensures { OnOk result (draft.new ≡ written line (meaning.intrinsic_call (environment env.now) (s.atomic_cas (view.designator atom.now) kind (view.result_variable old.now) (view.expression compare.now) (view.expression new.now) (view.maybe_result stat.now)) order.now) draft.old) }
{
    let arguments = [
        ArgumentOf::Cell(atom),
        ArgumentOf::Result(old),
        ArgumentOf::Value(compare),
        ArgumentOf::Value(new),
        ArgumentOf::Stat(stat),
    ];
    let call = AtomicCall {
        atom,
        atom_dummy: 0,
        op: AtomicOp::Cas,
        kind,
        first: Some(2),
        second: Some(3),
        old: Some(old),
        old_dummy: 1,
        stat,
        stat_dummy: 4,
    };
    push_atomic(draft, env, &arguments, written_dummies(order), &call, line)
}

fn push_event_query<'a>(
    draft: &mut Draft,
    env: &Env<'_>,
    event: &'a Designator,
    count: &'a ResultVariable,
    stat: &'a Option<ResultVariable>,
    order: &WrittenArguments,
    line: u32,
) -> Result<(), NoMemory>
    ensures { OnOk result (draft.new ≡ written line (meaning.intrinsic_call (environment env.now) (s.event_query (view.designator event.now) (view.result_variable count.now) (view.maybe_result stat.now)) order.now) draft.old) }
{
    let arguments = [
        ArgumentOf::Cell(event),
        ArgumentOf::Result(count),
        ArgumentOf::Stat(stat),
    ];
    let dummies = written_dummies(order);
    push_query(draft, env, &arguments, dummies, event, count, stat, line)
}

fn push_combination<'a>(
    draft: &mut Draft,
    env: &Env<'_>,
    combination: Combination,
    collected: &'a Collected,
    result_image: &'a Option<TypedExpr>,
    stat: &'a Option<ResultVariable>,
    order: &WrittenArguments,
    line: u32,
) -> Result<(), NoMemory>
    ensures { OnOk result (draft.new ≡ written line (meaning.intrinsic_call (environment env.now) (s.combine combination (statements.collected collected.now) (view.maybe_expression result_image.now) (view.maybe_result stat.now)) order.now) draft.old) }
{
    let arguments = [
        ArgumentOf::Whole(collected),
        ArgumentOf::OptionalValue(result_image),
        ArgumentOf::Stat(stat),
    ];
    let dummies = written_dummies(order);
    let op = combination_of(combination);
    push_combine(
        draft,
        env,
        &arguments,
        dummies,
        collected,
        op,
        result_image,
        stat,
        line,
    )
}

fn push_spread<'a>(
    draft: &mut Draft,
    env: &Env<'_>,
    collected: &'a Collected,
    source_image: &'a TypedExpr,
    stat: &'a Option<ResultVariable>,
    order: &WrittenArguments,
    line: u32,
) -> Result<(), NoMemory>
    ensures { OnOk result (draft.new ≡ written line (meaning.intrinsic_call (environment env.now) (s.broadcast (statements.collected collected.now) (view.expression source_image.now) (view.maybe_result stat.now)) order.now) draft.old) }
{
    let arguments = [
        ArgumentOf::Whole(collected),
        ArgumentOf::Value(source_image),
        ArgumentOf::Stat(stat),
    ];
    let dummies = written_dummies(order);
    push_broadcast(draft, env, &arguments, dummies, collected, stat, line)
}

/// A call of an intrinsic subroutine.
pub fn push_intrinsic_call(
    draft: &mut Draft,
    env: &Env<'_>,
    call: &IntrinsicCall,
    line: u32,
) -> Result<(), NoMemory>
    ensures { OnOk result (draft.new ≡ written line (meaning.intrinsic_call (environment env.now) (statements.intrinsic_subroutine call.now.form) call.now.order) draft.old) }
{
    let order = &call.order;
    match &call.form {
        IntrinsicSubroutine::AtomicDefine {
            atom,
            kind,
            value,
            stat,
        } => push_define(draft, env, atom, *kind, value, stat, order, line),
        IntrinsicSubroutine::AtomicRef {
            value,
            atom,
            kind,
            stat,
        } => push_ref(draft, env, value, atom, *kind, stat, order, line),
        IntrinsicSubroutine::AtomicChange {
            change,
            atom,
            value,
            stat,
        } => push_change(draft, env, *change, atom, value, stat, order, line),
        IntrinsicSubroutine::AtomicFetch {
            change,
            atom,
            value,
            old,
            stat,
        } => push_fetch(draft, env, *change, atom, value, old, stat, order, line),
        IntrinsicSubroutine::AtomicCas {
            atom,
            kind,
            old,
            compare,
            new,
            stat,
        } => push_cas(
            draft, env, atom, *kind, old, compare, new, stat, order, line,
        ),
        IntrinsicSubroutine::EventQuery { event, count, stat } => {
            push_event_query(draft, env, event, count, stat, order, line)
        }
        IntrinsicSubroutine::Combine {
            combination,
            a,
            result_image,
            stat,
        } => push_combination(draft, env, *combination, a, result_image, stat, order, line),
        IntrinsicSubroutine::Broadcast {
            a,
            source_image,
            stat,
        } => push_spread(draft, env, a, source_image, stat, order, line),
    }
}

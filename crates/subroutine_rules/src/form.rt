//! Calls of intrinsic subroutines as the checked tree holds them.

ghost use Rattle.std.specs.Prelude.{◌≡◌};
ghost use Rattle.std.specs.Option.{option_map};
ghost use Rattle.checked_tree.specs.ExpressionViews.{designator as designator_seen, expression, maybe_expression, maybe_result, result_variable as result_seen};
ghost use Rattle.checked_tree.specs.Statements as ts;
ghost use Rattle.checked_tree.specs.StatementViews.{collected as collected_seen, intrinsic_subroutine, statement_form};
ghost use Rattle.rule_definitions.specs.IntrinsicSubroutines as rules;
ghost use Rattle.rule_definitions.specs.Judgements.{made, three};
ghost use Rattle.subroutine_rules.specs.Atoms.{atom_seen};
ghost use Rattle.subroutine_rules.specs.Parts.{five_made, four_made};

use crate::atom::Atom;
use checked_tree::action::{
    AtomicChange, Collected, Combination, IntrinsicCall, IntrinsicSubroutine, WrittenArguments,
};
use checked_tree::expr::{Designator, ResultVariable, TypedExpr};
use checked_tree::statement::StatementForm;

/// A call with its arguments in this order.
#[tactic(auto, using(checked_tree::specs::StatementViews::typed_statement_forms))]
pub fn call_of(form: Option<IntrinsicSubroutine>, order: WrittenArguments) -> Option<StatementForm>
    ensures { option_map statement_form result ≡ made (λ x. ts.call_intrinsic x order) (option_map intrinsic_subroutine form) }
{
    match form {
        Some(form) => Some(StatementForm::CallIntrinsic(IntrinsicCall { form, order })),
        None => None,
    }
}

/// ATOMIC_DEFINE (16.9.23).
pub fn define(
    atom: Option<Atom>,
    value: Option<TypedExpr>,
    stat: Option<Option<ResultVariable>>,
) -> Option<IntrinsicSubroutine>
    ensures { option_map intrinsic_subroutine result ≡ three (λ a v r. ts.atomic_define a.variable a.kind v r) (option_map atom_seen atom) (option_map expression value) (option_map maybe_result stat) }
{
    let Some(atom) = atom else {
        drop(value);
        drop(stat);
        return None;
    };
    let Some(value) = value else {
        drop(atom);
        drop(stat);
        return None;
    };
    let Some(stat) = stat else {
        drop(atom);
        drop(value);
        return None;
    };
    let Atom {
        variable: atom,
        kind,
    } = atom;
    Some(IntrinsicSubroutine::AtomicDefine {
        atom,
        kind,
        value,
        stat,
    })
}

/// ATOMIC_REF (16.9.29).
pub fn reference(
    value: Option<ResultVariable>,
    atom: Option<Atom>,
    stat: Option<Option<ResultVariable>>,
) -> Option<IntrinsicSubroutine>
    ensures { option_map intrinsic_subroutine result ≡ three (λ v a r. ts.atomic_ref v a.variable a.kind r) (option_map result_seen value) (option_map atom_seen atom) (option_map maybe_result stat) }
{
    let Some(value) = value else {
        drop(atom);
        drop(stat);
        return None;
    };
    let Some(atom) = atom else {
        drop(value);
        drop(stat);
        return None;
    };
    let Some(stat) = stat else {
        drop(atom);
        drop(value);
        return None;
    };
    let Atom {
        variable: atom,
        kind,
    } = atom;
    Some(IntrinsicSubroutine::AtomicRef {
        value,
        atom,
        kind,
        stat,
    })
}

/// ATOMIC_ADD, ATOMIC_AND, ATOMIC_OR and ATOMIC_XOR (16.9.20, 16.9.21, 16.9.28, 16.9.30).
pub fn change(
    change: AtomicChange,
    atom: Option<Atom>,
    value: Option<TypedExpr>,
    stat: Option<Option<ResultVariable>>,
) -> Option<IntrinsicSubroutine>
    ensures { option_map intrinsic_subroutine result ≡ three (λ a v r. ts.atomic_change change a.variable v r) (option_map atom_seen atom) (option_map expression value) (option_map maybe_result stat) }
{
    let Some(atom) = atom else {
        drop(value);
        drop(stat);
        return None;
    };
    let Some(value) = value else {
        drop(atom);
        drop(stat);
        return None;
    };
    let Some(stat) = stat else {
        drop(atom);
        drop(value);
        return None;
    };
    let Atom { variable: atom, .. } = atom;
    Some(IntrinsicSubroutine::AtomicChange {
        change,
        atom,
        value,
        stat,
    })
}

/// ATOMIC_FETCH_ADD, ATOMIC_FETCH_AND, ATOMIC_FETCH_OR and ATOMIC_FETCH_XOR (16.9.24 to 16.9.27).
pub fn fetch(
    change: AtomicChange,
    atom: Option<Atom>,
    value: Option<TypedExpr>,
    old: Option<ResultVariable>,
    stat: Option<Option<ResultVariable>>,
) -> Option<IntrinsicSubroutine>
    ensures { option_map intrinsic_subroutine result ≡ four_made (λ a v o r. ts.atomic_fetch change a.variable v o r) (option_map atom_seen atom) (option_map expression value) (option_map result_seen old) (option_map maybe_result stat) }
{
    let Some(atom) = atom else {
        drop(value);
        drop(old);
        drop(stat);
        return None;
    };
    let Some(value) = value else {
        drop(atom);
        drop(old);
        drop(stat);
        return None;
    };
    let Some(old) = old else {
        drop(atom);
        drop(value);
        drop(stat);
        return None;
    };
    let Some(stat) = stat else {
        drop(atom);
        drop(value);
        drop(old);
        return None;
    };
    let Atom { variable: atom, .. } = atom;
    Some(IntrinsicSubroutine::AtomicFetch {
        change,
        atom,
        value,
        old,
        stat,
    })
}

/// ATOMIC_CAS (16.9.22).
pub fn compare_and_swap(
    atom: Option<Atom>,
    old: Option<ResultVariable>,
    compare: Option<TypedExpr>,
    new: Option<TypedExpr>,
    stat: Option<Option<ResultVariable>>,
) -> Option<IntrinsicSubroutine>
    ensures { option_map intrinsic_subroutine result ≡ five_made (λ a o c n r. ts.atomic_cas a.variable a.kind o c n r) (option_map atom_seen atom) (option_map result_seen old) (option_map expression compare) (option_map expression new) (option_map maybe_result stat) }
{
    let Some(atom) = atom else {
        drop(old);
        drop(compare);
        drop(new);
        drop(stat);
        return None;
    };
    let Some(old) = old else {
        drop(atom);
        drop(compare);
        drop(new);
        drop(stat);
        return None;
    };
    let Some(compare) = compare else {
        drop(atom);
        drop(old);
        drop(new);
        drop(stat);
        return None;
    };
    let Some(new) = new else {
        drop(atom);
        drop(old);
        drop(compare);
        drop(stat);
        return None;
    };
    let Some(stat) = stat else {
        drop(atom);
        drop(old);
        drop(compare);
        drop(new);
        return None;
    };
    let Atom {
        variable: atom,
        kind,
    } = atom;
    Some(IntrinsicSubroutine::AtomicCas {
        atom,
        kind,
        old,
        compare,
        new,
        stat,
    })
}

/// EVENT_QUERY (16.9.72).
pub fn query(
    event: Option<Designator>,
    count: Option<ResultVariable>,
    stat: Option<Option<ResultVariable>>,
) -> Option<IntrinsicSubroutine>
    ensures { option_map intrinsic_subroutine result ≡ three ts.event_query (option_map designator_seen event) (option_map result_seen count) (option_map maybe_result stat) }
{
    let Some(event) = event else {
        drop(count);
        drop(stat);
        return None;
    };
    let Some(count) = count else {
        drop(event);
        drop(stat);
        return None;
    };
    let Some(stat) = stat else {
        drop(event);
        drop(count);
        return None;
    };
    Some(IntrinsicSubroutine::EventQuery { event, count, stat })
}

/// CO_SUM, CO_MIN and CO_MAX (16.9.50, 16.9.48, 16.9.47).
pub fn combine(
    combination: Combination,
    a: Option<Collected>,
    result_image: Option<Option<TypedExpr>>,
    stat: Option<Option<ResultVariable>>,
) -> Option<IntrinsicSubroutine>
    ensures { option_map intrinsic_subroutine result ≡ three (ts.combine combination) (option_map collected_seen a) (option_map maybe_expression result_image) (option_map maybe_result stat) }
{
    let Some(a) = a else {
        drop(result_image);
        drop(stat);
        return None;
    };
    let Some(result_image) = result_image else {
        drop(a);
        drop(stat);
        return None;
    };
    let Some(stat) = stat else {
        drop(a);
        drop(result_image);
        return None;
    };
    Some(IntrinsicSubroutine::Combine {
        combination,
        a,
        result_image,
        stat,
    })
}

/// CO_BROADCAST (16.9.46).
pub fn broadcast(
    a: Option<Collected>,
    source_image: Option<TypedExpr>,
    stat: Option<Option<ResultVariable>>,
) -> Option<IntrinsicSubroutine>
    ensures { option_map intrinsic_subroutine result ≡ three ts.broadcast (option_map collected_seen a) (option_map expression source_image) (option_map maybe_result stat) }
{
    let Some(a) = a else {
        drop(source_image);
        drop(stat);
        return None;
    };
    let Some(source_image) = source_image else {
        drop(a);
        drop(stat);
        return None;
    };
    let Some(stat) = stat else {
        drop(a);
        drop(source_image);
        return None;
    };
    Some(IntrinsicSubroutine::Broadcast {
        a,
        source_image,
        stat,
    })
}

//! Headings of procedures (ISO/IEC 1539-1:2018, 15.6.2.2, 15.6.2.3), and the rules that they break.

ghost use Rattle.std.specs.Prelude.{◌≡◌, ◌∷◌, ◌||◌, [], false, map, not, IfOk, OnOk};
ghost use Rattle.fortran_tree.specs.DeclarationViews.{declaration_type_spec};
ghost use Rattle.fortran_tree.specs.UnitViews.{heading as heading_seen, prefix_spec};
ghost use Rattle.rule_definitions.specs.Judgements.{first_of, is_there, said_of, unless};
ghost use Rattle.rule_definitions.specs.Names.{is_among};
ghost use Rattle.rule_definitions.specs.Units.{answer_breaks, dummy_breaks, first_type, headed, heading_breaks, is_typed, own_name, place_of_answer, second_type_breaks, type_breaks, types_of};
ghost use Rattle.scope_table.specs.Pending.{name_texts};
ghost use Rattle.unit_scopes.specs.Headings.{first_written as first_written_seen, is_second, lent_name, lent_type, name_rules, prefix_breaks, type_rules};

use crate::declare::judge_type;
use caf_base::place::Pos;
use caf_base::refusal::NoMemory;
use checked_tree::data::DataType;
use declaration_rules::heading::judge_dummy_names;
use declaration_rules::whole::judge_special_type;
use fortran_tree::declaration::TypeSpec;
use fortran_tree::name::Name;
use fortran_tree::unit::{Heading, Prefix};
use rule_definitions::broken::Broken;
use rule_definitions::rule;
use scope_table::broken::note;
use scope_table::dummy::Dummies;
use scope_table::names::Names;
use scope_table::outside::heading_name;
use scope_table::scope::Scope;
use std::alloc::Global;

/// The dummy arguments.
pub fn dummies_in(heading: &Heading) -> &[Name]
    ensures { result.now ≡ (headed (heading_seen heading.now)).dummies }
{
    match heading {
        Heading::Subroutine {
            dummies: Some(dummies),
            ..
        } => dummies.as_slice(),
        Heading::Subroutine { dummies: None, .. } => &[],
        Heading::Function { dummies, .. } => dummies.as_slice(),
    }
}

/// The result of a function, by the name that it has in it.
pub fn answer_in(heading: &Heading) -> Option<&Name>
    ensures { lent_name result ≡ (headed (heading_seen heading.now)).answer }
{
    match heading {
        Heading::Subroutine { .. } => None,
        Heading::Function {
            result: Some(result),
            ..
        } => Some(result),
        Heading::Function {
            name,
            result: None,
            ..
        } => Some(name),
    }
}

/// What stands before FUNCTION.
pub fn prefixes_in(heading: &Heading) -> &[Prefix]
    ensures { types_of (map prefix_spec result.now) ≡ (headed (heading_seen heading.now)).types }
{
    match heading {
        Heading::Subroutine { .. } => &[],
        Heading::Function { prefixes, .. } => prefixes.as_slice(),
    }
}

// Whether a function's own name is that of its result.
fn names_itself_in(heading: &Heading) -> bool
    ensures { result ≡ (headed (heading_seen heading.now)).names_itself }
{
    match heading {
        Heading::Subroutine { .. } => false,
        Heading::Function { result, .. } => result.is_none(),
    }
}

/// The first type that stands before FUNCTION.
pub fn first_written(prefixes: &[Prefix]) -> Option<&TypeSpec>
    ensures { lent_type result ≡ first_written_seen (types_of (map prefix_spec prefixes.now)) }
{
    for next in prefixes {
        if let Prefix::Result(written) = next {
            return Some(written);
        }
    }
    None
}

/// Whether the type of the result stands before FUNCTION.
pub fn is_typed_heading(heading: &Heading) -> bool
    ensures { result ≡ is_typed (headed (heading_seen heading.now)) }
{
    first_written(prefixes_in(heading)).is_some()
}

// Whether a second type stands before FUNCTION.
fn has_second_type(prefixes: &[Prefix]) -> bool
    ensures { result ≡ is_second false (types_of (map prefix_spec prefixes.now)) }
{
    let mut has_one = false;
    for next in prefixes {
        if let Prefix::Result(_) = next {
            if has_one {
                return true;
            }
            has_one = true;
        }
    }
    false
}

/// The type that stands before FUNCTION, where nothing breaks in it.
pub fn judge_first_type(
    alloc: Global,
    scope: &Scope<'_>,
    prefixes: &[Prefix],
) -> Result<Option<DataType>, NoMemory>
    ensures { IfOk result (λ y. y ≡ (first_type scope.now (types_of (map prefix_spec prefixes.now))).meaning) }
{
    match first_written(prefixes) {
        Some(written) => {
            let mut untold = None;
            let of_type = judge_type(alloc, scope, &mut untold, written)?;
            Ok(of_type)
        }
        None => Ok(None),
    }
}

fn judge_prefix(
    alloc: Global,
    scope: &Scope<'_>,
    first: &mut Option<Broken>,
    prefix: &Prefix,
) -> Result<(), NoMemory>
    ensures { OnOk result (first.new ≡ first_of first.old (prefix_breaks scope.now (prefix_spec prefix.now))) }
{
    if let Prefix::Result(written) = prefix {
        let _ = judge_type(alloc, scope, first, written)?;
    }
    Ok(())
}

fn judge_prefixes(
    alloc: Global,
    scope: &Scope<'_>,
    first: &mut Option<Broken>,
    prefixes: &[Prefix],
) -> Result<(), NoMemory>
    ensures { OnOk result (first.new ≡ first_of first.old (type_breaks scope.now (types_of (map prefix_spec prefixes.now)))) }
{
    for next in prefixes {
        judge_prefix(alloc, scope, first, next)?;
    }
    Ok(())
}

// Rule 21 (15.6.2.2): a second type before FUNCTION.
#[tactic(auto, using(crate::proofs::Heads::second_is))]
fn judge_second_type(first: &mut Option<Broken>, prefixes: &[Prefix], at: Pos)
    ensures { first.new ≡ first_of first.old (second_type_breaks (types_of (map prefix_spec prefixes.now)) at) }
{
    if has_second_type(prefixes) {
        note(first, rule::DECLARED_TWICE, at);
    }
}

#[tactic(auto, using(scope_table::proofs::First::first_of_both))]
fn judge_types(
    alloc: Global,
    scope: &Scope<'_>,
    first: &mut Option<Broken>,
    prefixes: &[Prefix],
    at: Pos,
) -> Result<(), NoMemory>
    ensures { OnOk result (first.new ≡ first_of first.old (type_rules scope.now (types_of (map prefix_spec prefixes.now)) at)) }
{
    judge_second_type(first, prefixes, at);
    judge_prefixes(alloc, scope, first, prefixes)?;
    let of_type = judge_first_type(alloc, scope, prefixes)?;
    judge_special_type(first, of_type, 0, 0, at);
    Ok(())
}

// The names that no dummy argument may have: that of the function, where it is the result's.
fn names_before(alloc: Global, heading: &Heading) -> Result<Names, NoMemory>
    ensures { IfOk result (λ ns. ns ≡ own_name (headed (heading_seen heading.now))) }
{
    let mut names = Names::new(alloc);
    if names_itself_in(heading) {
        names.add(heading_name(heading).text.copy()?)?;
    }
    Ok(names)
}

// Rule 21 (19.3.1): a result with the name of a dummy argument.
fn judge_answer(
    first: &mut Option<Broken>,
    dummies: &Dummies<'_>,
    names_itself: bool,
    answer: &Name,
)
    ensures { first.new ≡ first_of first.old (unless (names_itself || not (is_among dummies.now answer.now.text)) 21 answer.now.at) }
{
    if !names_itself && dummies.contains(answer.text.as_slice()) {
        note(first, rule::DECLARED_TWICE, answer.at);
    }
}

fn judge_maybe_answer(first: &mut Option<Broken>, dummies: &Dummies<'_>, heading: &Heading)
    requires { dummies.now ≡ name_texts (headed (heading_seen heading.now)).dummies }
    ensures { first.new ≡ first_of first.old (said_of (answer_breaks (headed (heading_seen heading.now))) (headed (heading_seen heading.now)).answer) }
{
    if let Some(answer) = answer_in(heading) {
        judge_answer(first, dummies, names_itself_in(heading), answer);
    }
}

#[tactic(auto, using(scope_table::proofs::First::first_of_both))]
fn judge_names(
    alloc: Global,
    first: &mut Option<Broken>,
    dummies: &Dummies<'_>,
    heading: &Heading,
) -> Result<(), NoMemory>
    requires { dummies.now ≡ name_texts (headed (heading_seen heading.now)).dummies }
    ensures { OnOk result (first.new ≡ first_of first.old (name_rules (headed (heading_seen heading.now)))) }
{
    let mut before = names_before(alloc, heading)?;
    judge_dummy_names(first, &mut before, dummies_in(heading))?;
    judge_maybe_answer(first, dummies, heading);
    Ok(())
}

// The place of the result, else that of the procedure's name.
fn answer_place(heading: &Heading) -> Pos
    ensures { result ≡ place_of_answer (headed (heading_seen heading.now)) }
{
    match answer_in(heading) {
        Some(answer) => answer.at,
        None => heading_name(heading).at,
    }
}

/// The rules of a heading; its types are those of the host (19.5.1.4).
pub fn judge_heading(
    alloc: Global,
    scope: &Scope<'_>,
    first: &mut Option<Broken>,
    dummies: &Dummies<'_>,
    heading: &Heading,
) -> Result<(), NoMemory>
    requires { dummies.now ≡ name_texts (headed (heading_seen heading.now)).dummies }
    ensures { OnOk result (first.new ≡ first_of first.old (heading_breaks scope.now (headed (heading_seen heading.now)))) }
{
    judge_names(alloc, first, dummies, heading)?;
    judge_types(
        alloc,
        scope,
        first,
        prefixes_in(heading),
        answer_place(heading),
    )?;
    Ok(())
}

//! Type declaration statements (ISO/IEC 1539-1:2018, 8.2): a fold over the entities in order, each of which sees the
//! scope so far.

ghost use Rattle.std.specs.Prelude.{◌≡◌, ◌++◌, ◌||◌, ◌&&◌, Some, None, map, IfOk, OnOk};
ghost use Rattle.std.specs.Option.{option_map};
ghost use Rattle.scope_table.specs.Scopes.{denoted as meaning_of};
ghost use Rattle.fortran_tree.specs.DeclarationViews.{attribute as attribute_seen, coarray_spec, declaration as declaration_seen, declaration_type_spec, dimension, entity as entity_seen};
ghost use Rattle.fortran_tree.specs.ExpressionViews.{expression as source};
ghost use Rattle.rule_definitions.specs.Judgements.{first_of, is_there};
ghost use Rattle.rule_definitions.specs.Names.{Scope as Names, denoted_in};
ghost use Rattle.rule_definitions.specs.Declarations.{attribute_breaks, is_answer, raw_coshape_breaks, raw_dimensions_breaks, type_denoted, type_judged};
ghost use Rattle.declaration_rules.specs.Entities.{attributes, unit};
ghost use Rattle.unit_scopes.specs.EntitiesAsked.{asked_entity, entity_asked_of, new_entity_breaks, repeated_asked, scope_behind};
ghost use Rattle.unit_scopes.specs.Heads.{one_attribute_breaks};
ghost use Rattle.unit_scopes.specs.Telling.{behind, grown_scope, head_type, kind_judged, of_all, of_declaration, of_entities, of_entity, of_head, told};

use crate::asked::ask;
use crate::coshape::note_raw_coshape;
use crate::entity::{AskedEntity, ask_coshape, ask_dimensions, ask_entity, note_raw_entity};
use crate::fact::{add_entity, judge_new};
use crate::grown::{Grown, Setting};
use caf_base::place::Pos;
use caf_base::refusal::NoMemory;
use caf_base::value::Kind;
use checked_tree::data::DataType;
use declaration_rules::attribute::{Attributes, DeclaringUnit, attributes_written, names_answer};
use declaration_rules::dimension::note_raw_dimensions;
use declaration_rules::kind::{KindOf, kind_of};
use fortran_tree::declaration::{Attribute, Coshape, Declaration, Dimension, Entity, TypeSpec};
use fortran_tree::expr::Expr;
use rule_definitions::broken::Broken;
use rule_definitions::rule;
use scope_table::broken::note;
use scope_table::scope::{Denoted, Scope};
use scope_table::table::Table;
use std::alloc::Global;

// Types (8.2, 7.4.3.1, 7.4.5)

// The kind that is written, where its expression is a kind of that type.
#[tactic(auto, using(crate::proofs::Asks::kind_first, crate::proofs::Asks::kind_some, crate::proofs::Asks::kind_none))]
fn judge_kind(
    alloc: Global,
    scope: &Scope<'_>,
    first: &mut Option<Broken>,
    of: KindOf,
    kind: &Expr,
) -> Result<Option<DataType>, NoMemory>
    ensures first { OnOk result (first.new ≡ first_of first.old (kind_judged scope.now of (source kind.now)).breaks) }
    ensures of_type { IfOk result (λ y. y ≡ (kind_judged scope.now of (source kind.now)).meaning) }
{
    let asked = ask(alloc, scope, kind)?;
    match kind_of(first, of, &asked) {
        Some(kind) => Ok(Some(DataType::Intrinsic(kind))),
        None => Ok(None),
    }
}

// Rule 20 (16.10.2): TYPE of a name that is no type.
fn judge_derived(
    first: &mut Option<Broken>,
    denoted: Option<Denoted<'_>>,
    at: Pos,
) -> Option<DataType>
    ensures first { first.new ≡ first_of first.old (type_denoted (option_map meaning_of denoted.entry) at).breaks }
    ensures of_type { result ≡ (type_denoted (option_map meaning_of denoted.entry) at).meaning }
{
    let Some(denoted) = denoted else {
        note(first, rule::UNKNOWN_NAME, at);
        return None;
    };
    match denoted {
        Denoted::ModuleType(of_type) => Some(of_type),
        Denoted::Variable(_)
        | Denoted::Constant(_)
        | Denoted::Subroutine(_)
        | Denoted::Function(_)
        | Denoted::ModuleConstant(_)
        | Denoted::IntrinsicFunction(_)
        | Denoted::IntrinsicSubroutine(_) => {
            note(first, rule::UNKNOWN_NAME, at);
            None
        }
    }
}

/// A type, where nothing breaks in it.
pub fn judge_type(
    alloc: Global,
    scope: &Scope<'_>,
    first: &mut Option<Broken>,
    written: &TypeSpec,
) -> Result<Option<DataType>, NoMemory>
    ensures first { OnOk result (first.new ≡ first_of first.old (type_judged scope.now (declaration_type_spec written.now)).breaks) }
    ensures of_type { IfOk result (λ y. y ≡ (type_judged scope.now (declaration_type_spec written.now)).meaning) }
{
    match written {
        TypeSpec::Integer { kind: None } => Ok(Some(DataType::Intrinsic(Kind::I4))),
        TypeSpec::Integer { kind: Some(kind) } => {
            judge_kind(alloc, scope, first, KindOf::Integer, kind)
        }
        TypeSpec::Logical { kind: None } => Ok(Some(DataType::Intrinsic(Kind::L4))),
        TypeSpec::Logical { kind: Some(kind) } => {
            judge_kind(alloc, scope, first, KindOf::Logical, kind)
        }
        TypeSpec::Derived { name } => Ok(judge_derived(
            first,
            scope.denotes(name.text.as_slice()),
            name.at,
        )),
    }
}

// Attributes

#[tactic(auto, using(crate::proofs::Asks::dimensions_first))]
fn note_dimensions(
    alloc: Global,
    scope: &Scope<'_>,
    first: &mut Option<Broken>,
    dimensions: &[Dimension],
) -> Result<(), NoMemory>
    ensures { OnOk result (first.new ≡ first_of first.old (raw_dimensions_breaks scope.now (map dimension dimensions.now))) }
{
    let asked = ask_dimensions(alloc, scope, dimensions)?;
    let _ = note_raw_dimensions(first, asked.as_slice());
    Ok(())
}

#[tactic(auto, using(crate::proofs::Asks::coshape_first))]
fn note_coshape(
    alloc: Global,
    scope: &Scope<'_>,
    first: &mut Option<Broken>,
    coshape: &Coshape,
) -> Result<(), NoMemory>
    ensures { OnOk result (first.new ≡ first_of first.old (raw_coshape_breaks scope.now (Some (coarray_spec coshape.now)))) }
{
    let asked = Some(ask_coshape(alloc, scope, coshape)?);
    let _ = note_raw_coshape(first, &asked);
    Ok(())
}

// What breaks in the expressions of an attribute.
fn note_attribute(
    alloc: Global,
    scope: &Scope<'_>,
    first: &mut Option<Broken>,
    attribute: &Attribute,
) -> Result<(), NoMemory>
    ensures { OnOk result (first.new ≡ first_of first.old (one_attribute_breaks scope.now (attribute_seen attribute.now))) }
{
    match attribute {
        Attribute::Dimension(dimensions) => {
            note_dimensions(alloc, scope, first, dimensions.as_slice())
        }
        Attribute::Codimension(coshape) => note_coshape(alloc, scope, first, coshape),
        Attribute::Parameter | Attribute::Allocatable | Attribute::Save | Attribute::Intent(_) =>
            Ok(()),
    }
}

fn note_attributes(
    alloc: Global,
    scope: &Scope<'_>,
    first: &mut Option<Broken>,
    written: &[Attribute],
) -> Result<(), NoMemory>
    ensures { OnOk result (first.new ≡ first_of first.old (attribute_breaks scope.now (map attribute_seen written.now))) }
{
    for next in written {
        note_attribute(alloc, scope, first, next)?;
    }
    Ok(())
}

// The type of a declaration, and what breaks in it and in its attributes.
#[tactic(auto, using(scope_table::proofs::First::first_of_both))]
fn judge_head(
    alloc: Global,
    scope: &Scope<'_>,
    first: &mut Option<Broken>,
    declaration: &Declaration,
) -> Result<Option<DataType>, NoMemory>
    ensures first { OnOk result (first.new ≡ first_of first.old ((type_judged scope.now (declaration_seen declaration.now).type_spec).breaks ++ attribute_breaks scope.now (declaration_seen declaration.now).attributes)) }
    ensures of_type { IfOk result (λ y. y ≡ (type_judged scope.now (declaration_seen declaration.now).type_spec).meaning) }
{
    let of_type = judge_type(alloc, scope, first, &declaration.type_spec)?;
    note_attributes(alloc, scope, first, declaration.attributes.as_slice())?;
    Ok(of_type)
}

// Entities

// Whether a name is declared already, or is that of a result that its heading types.
fn is_declared_name(of: &DeclaringUnit<'_>, own: &Table, name: &[u8]) -> bool
    ensures { result ≡ (is_there (denoted_in own.now name.now) || (of.now.is_answer_typed && is_answer (unit of.now) name.now)) }
{
    if own.find(name).is_some() {
        return true;
    }
    of.is_answer_typed && names_answer(of, name)
}

// Rule 21 (19.3.1), unless something breaks in the expressions of the entity.
fn note_repeated(first: &mut Option<Broken>, asked: &AskedEntity, at: Pos)
    ensures { first.new ≡ first_of first.old (repeated_asked (asked_entity asked.now) at) }
{
    if note_raw_entity(first, asked) {
        note(first, rule::DECLARED_TWICE, at);
    }
}

// An entity whose name isn't declared yet.
fn declare_new(
    alloc: Global,
    of: &DeclaringUnit<'_>,
    all: Attributes<'_>,
    of_type: Option<DataType>,
    grown: &mut Grown,
    entity: &Entity,
    asked: &AskedEntity,
) -> Result<(), NoMemory>
    requires { denoted_in grown.old.own entity.now.name.text ≡ None }
    ensures first { OnOk result (grown.new.first ≡ first_of grown.old.first (new_entity_breaks (unit of.now) (attributes all.entry) of_type (entity_seen entity.now) (asked_entity asked.now))) }
    ensures scope { OnOk result ((s : Names) → grown_scope s grown.new ≡ scope_behind (grown_scope s grown.old) (unit of.now) (attributes all.entry) of_type (entity_seen entity.now) (asked_entity asked.now)) }
{
    let facts = judge_new(alloc, &mut grown.first, of, all, of_type, entity, asked)?;
    add_entity(
        alloc,
        of,
        all,
        of_type,
        entity,
        &mut grown.own,
        &mut grown.constants,
        facts,
    )?;
    Ok(())
}

// An entity, by what was asked of its expressions in the scope so far.
fn declare_asked(
    alloc: Global,
    of: &DeclaringUnit<'_>,
    all: Attributes<'_>,
    of_type: Option<DataType>,
    grown: &mut Grown,
    entity: &Entity,
    asked: &AskedEntity,
) -> Result<(), NoMemory>
    ensures { OnOk result ((s : Names) → asked_entity asked.now ≡ entity_asked_of (grown_scope s grown.old) (attributes all.entry) (entity_seen entity.now) → told s grown.new ≡ behind (of_entity (unit of.now) (attributes all.entry) of_type (entity_seen entity.now)) (told s grown.old)) }
{
    if is_declared_name(of, &grown.own, entity.name.text.as_slice()) {
        note_repeated(&mut grown.first, asked, entity.name.at);
        return Ok(());
    }
    declare_new(alloc, of, all, of_type, grown, entity, asked)?;
    Ok(())
}

fn declare_entity(
    alloc: Global,
    setting: &Setting<'_>,
    of: &DeclaringUnit<'_>,
    all: Attributes<'_>,
    of_type: Option<DataType>,
    grown: &mut Grown,
    entity: &Entity,
) -> Result<(), NoMemory>
    ensures { OnOk result (told setting.now grown.new ≡ behind (of_entity (unit of.now) (attributes all.entry) of_type (entity_seen entity.now)) (told setting.now grown.old)) }
{
    let asked = ask_in(alloc, setting, grown, all, entity)?;
    declare_asked(alloc, of, all, of_type, grown, entity, &asked)?;
    Ok(())
}

// What is asked of an entity in the scope so far.
#[tactic(auto, using(crate::proofs::Folds::asked_told))]
fn ask_in(
    alloc: Global,
    setting: &Setting<'_>,
    grown: &Grown,
    all: Attributes<'_>,
    entity: &Entity,
) -> Result<AskedEntity, NoMemory>
    ensures { IfOk result (λ q. asked_entity q ≡ entity_asked_of (grown_scope setting.now grown.now) (attributes all.entry) (entity_seen entity.now)) }
{
    let scope = setting.scope(&grown.own, grown.constants.as_slice());
    let asked = ask_entity(alloc, &scope, all, entity)?;
    Ok(asked)
}

fn declare_entities(
    alloc: Global,
    setting: &Setting<'_>,
    of: &DeclaringUnit<'_>,
    all: Attributes<'_>,
    of_type: Option<DataType>,
    grown: &mut Grown,
    entities: &[Entity],
) -> Result<(), NoMemory>
    ensures { OnOk result (told setting.now grown.new ≡ behind (of_entities (unit of.now) (attributes all.entry) of_type (map entity_seen entities.now)) (told setting.now grown.old)) }
{
    for next in entities {
        declare_entity(alloc, setting, of, all, of_type, grown, next)?;
    }
    Ok(())
}

// The type of a declaration, and what breaks in it and in its attributes, in the scope so far.
fn judge_head_in(
    alloc: Global,
    setting: &Setting<'_>,
    grown: &mut Grown,
    declaration: &Declaration,
) -> Result<Option<DataType>, NoMemory>
    ensures told { OnOk result (told setting.now grown.new ≡ behind (of_head (declaration_seen declaration.now)) (told setting.now grown.old)) }
    ensures of_type { IfOk result (λ y. y ≡ head_type (declaration_seen declaration.now) (told setting.now grown.old)) }
{
    let scope = setting.scope(&grown.own, grown.constants.as_slice());
    let of_type = judge_head(alloc, &scope, &mut grown.first, declaration)?;
    Ok(of_type)
}

#[tactic(auto, using(crate::proofs::Folds::declaration_told))]
fn declare(
    alloc: Global,
    setting: &Setting<'_>,
    of: &DeclaringUnit<'_>,
    grown: &mut Grown,
    declaration: &Declaration,
) -> Result<(), NoMemory>
    ensures { OnOk result (told setting.now grown.new ≡ behind (of_declaration (unit of.now) (declaration_seen declaration.now)) (told setting.now grown.old)) }
{
    let of_type = judge_head_in(alloc, setting, grown, declaration)?;
    declare_entities(
        alloc,
        setting,
        of,
        attributes_written(declaration.attributes.as_slice()),
        of_type,
        grown,
        declaration.entities.as_slice(),
    )?;
    Ok(())
}

/// What declarations declare in the scope that has grown so far, and the rules that they break: all of chapter 8.
pub fn declare_all(
    alloc: Global,
    setting: &Setting<'_>,
    of: &DeclaringUnit<'_>,
    grown: &mut Grown,
    declarations: &[Declaration],
) -> Result<(), NoMemory>
    ensures { OnOk result (told setting.now grown.new ≡ behind (of_all (unit of.now) (map declaration_seen declarations.now)) (told setting.now grown.old)) }
{
    for next in declarations {
        declare(alloc, setting, of, grown, next)?;
    }
    Ok(())
}

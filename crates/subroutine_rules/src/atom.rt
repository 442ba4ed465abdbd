//! Atoms (16.9.20 to 16.9.30): rule 53; and the values that stand beside them: rules 51 and 59.

ghost use Rattle.std.specs.Prelude.{◌≡◌, IfOk, Some};
ghost use Rattle.std.specs.Option.{option_map};
ghost use Rattle.checked_tree.specs.ExpressionViews.{designator as designator_seen, expression};
ghost use Rattle.rule_definitions.specs.IntrinsicSubroutines as rules;
ghost use Rattle.part_rules.specs.Views.{placed};
ghost use Rattle.subroutine_rules.specs.Variables as spec;
ghost use Rattle.subroutine_rules.specs.Atoms.{atom_seen, known};

use caf_base::refusal::NoMemory;
use caf_base::value::Kind;
use checked_tree::data::{DataType, Object};
use checked_tree::expr::{Designator, TypedExpr};
use part_rules::judged::{Judged, breaking};
use part_rules::part::{Part, plain};
use part_rules::types::{is_team_type, takes};
use rule_definitions::rule;
use rule_definitions::taken::Taken;
use specifier_rules::variable::{designator_in, missing};

/// An ATOM: a variable with its kind.
#[derive(Drop)]
pub struct Atom {
    pub variable: Designator,
    pub kind: Kind,
}

/// The kind of an atom of this type, where the call takes it.
fn atom_kind(taken: Taken, of_type: DataType) -> Option<Kind>
    ensures { result ≡ rules.atom_kind taken of_type }
{
    match of_type {
        DataType::Intrinsic(Kind::I4) => Some(Kind::I4),
        DataType::Intrinsic(Kind::L4) => match taken {
            Taken::Logicals | Taken::IntegersOrLogicals => Some(Kind::L4),
            Taken::Integers => None,
        },
        DataType::Intrinsic(Kind::I8) | DataType::Team | DataType::Event | DataType::Lock => None,
    }
}

/// Whether a designator is a part of a coarray.
#[tactic(auto, using(checked_tree::specs::ExpressionViews::typed_forms))]
fn is_coarray_part(designator: &Designator) -> bool
    ensures { result ≡ spec.is_coarray_part (designator_seen designator.now) }
{
    match designator.object {
        Object::Coarray(_) => true,
        Object::Local(_) | Object::Constant(_) => false,
    }
}

/// The atom that a designator with a kind is, where it is one.
fn atom_in(variable: Designator, kind: Option<Kind>) -> Option<Atom>
    ensures { option_map atom_seen result ≡ spec.atom_in (Some (designator_seen variable)) kind }
{
    let Some(kind) = kind else {
        drop(variable);
        return None;
    };
    if is_coarray_part(&variable) {
        return Some(Atom { variable, kind });
    }
    drop(variable);
    None
}

/// The atom that an expression is, where it is one of a type that the call takes.
#[tactic(auto, using(crate::proofs::Variables::atom_by_designator))]
fn atom_of(taken: Taken, value: TypedExpr) -> Option<Atom>
    ensures { option_map atom_seen result ≡ rules.atom_of taken (expression value) }
{
    if value.rank != 0 {
        drop(value);
        return None;
    }
    let of_type = value.of_type;
    match designator_in(value.into_form()) {
        Some(variable) => atom_in(variable, atom_kind(taken, of_type)),
        None => None,
    }
}

/// An ATOM: rule 53 for what is no scalar coarray or element of one, and for another type.
pub fn an_atom(taken: Taken, part: Part) -> Result<Judged<Atom>, NoMemory>
    ensures breaks { IfOk result (λ j. j.breaks.items ≡ (rules.an_atom taken (placed part)).breaks) }
    ensures meaning { IfOk result (λ j. option_map atom_seen j.meaning ≡ (rules.an_atom taken (placed part)).meaning) }
{
    let at = part.at;
    let Judged { breaks, meaning } = plain(part)?;
    let Some(value) = meaning else {
        return Ok(Judged {
            breaks,
            meaning: None,
        });
    };
    match atom_of(taken, value) {
        Some(atom) => Ok(Judged {
            breaks,
            meaning: Some(atom),
        }),
        None => missing(breaks, rule::ATOM, at),
    }
}

/// The type that VALUE, OLD, COMPARE and NEW have beside an ATOM: its own, either where it isn't known.
pub fn taken_with(atom: &Option<Atom>) -> Taken
    ensures { result ≡ rules.taken_with (known (option_map atom_seen atom.now)) }
{
    match atom {
        None => Taken::IntegersOrLogicals,
        Some(atom) => match atom.kind {
            Kind::I4 | Kind::I8 => Taken::Integers,
            Kind::L4 => Taken::Logicals,
        },
    }
}

/// A value beside an ATOM: rule 51 for a team, rule 59 for another type than these, rule 37 for an array.
pub fn an_atom_value(taken: Taken, part: Part) -> Result<Judged<TypedExpr>, NoMemory>
    ensures breaks { IfOk result (λ j. j.breaks.items ≡ (rules.an_atom_value taken (placed part)).breaks) }
    ensures meaning { IfOk result (λ j. option_map expression j.meaning ≡ (rules.an_atom_value taken (placed part)).meaning) }
{
    let at = part.at;
    let value = plain(part)?;
    let Some(found) = &value.meaning else {
        return Ok(value);
    };
    let is_scalar = found.rank == 0;
    let value = if takes(taken, found.of_type) {
        value
    } else if is_team_type(found.of_type) {
        breaking(value, rule::TEAM, at)?
    } else {
        breaking(value, rule::INTRINSIC_ARGUMENT, at)?
    };
    if is_scalar {
        Ok(value)
    } else {
        breaking(value, rule::ARRAY_FOR_SCALAR, at)
    }
}

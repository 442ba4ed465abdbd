//! Attributes, and the unit in which declarations stand.

ghost use Rattle.std.specs.Prelude.{◌≡◌, map, IfOk};
ghost use Rattle.fortran_tree.specs.DeclarationViews.{attribute};
ghost use Rattle.rule_definitions.specs.Names.{is_among};
ghost use Rattle.rule_definitions.specs.Declarations.{attributes_of, no_attributes, with_attribute, is_named_constant, is_answer};
ghost use Rattle.rule_definitions.specs.Units.{text_of};
ghost use Rattle.declaration_rules.specs.Entities.{attributes, unit};

use caf_base::refusal::NoMemory;
use fortran_tree::declaration::{Attribute, Coshape, Dimension, Intent};
use fortran_tree::name::Name;
use scope_table::dummy::Dummies;

/// The attributes of a declaration (ISO/IEC 1539-1:2018, 8.5): of one that stands twice the last holds.
#[derive(Clone, Copy)]
pub struct Attributes<'a> {
    pub is_parameter: bool,
    pub is_allocatable: bool,
    pub is_saved: bool,
    pub intent: Option<Intent>,
    pub dimensions: &'a [Dimension],
    pub coshape: Option<&'a Coshape>,
}

/// Where declarations stand: in the main program, or in a procedure with these dummies and this result, which the
/// heading may have typed.
#[derive(Drop)]
pub struct DeclaringUnit<'a> {
    pub is_procedure: bool,
    pub dummies: Dummies<'a>,
    pub answer: Option<&'a Name>,
    pub is_answer_typed: bool,
}

// The attributes with one more.
fn with_one<'a>(before: Attributes<'a>, next: &'a Attribute) -> Attributes<'a>
    ensures { attributes result ≡ with_attribute (attributes before.entry) (attribute next.now) }
{
    let mut all = before;
    match next {
        Attribute::Parameter => all.is_parameter = true,
        Attribute::Allocatable => all.is_allocatable = true,
        Attribute::Save => all.is_saved = true,
        Attribute::Dimension(dimensions) => all.dimensions = dimensions.as_slice(),
        Attribute::Codimension(coshape) => all.coshape = Some(coshape),
        Attribute::Intent(intent) => all.intent = Some(*intent),
    }
    all
}

/// The attributes that are written in a declaration.
pub fn attributes_written<'a>(written: &'a [Attribute]) -> Attributes<'a>
    ensures { attributes result ≡ attributes_of no_attributes (map attribute written.now) }
{
    let mut all = Attributes {
        is_parameter: false,
        is_allocatable: false,
        is_saved: false,
        intent: None,
        dimensions: &[],
        coshape: None,
    };
    for next in written {
        all = with_one(all, next);
    }
    all
}

/// Whether a name is that of the result.
pub fn names_answer(of: &DeclaringUnit<'_>, name: &[u8]) -> bool
    ensures { result ≡ is_answer (unit of.now) name.now }
{
    match of.answer {
        Some(answer) => answer.text.as_slice() == name,
        None => false,
    }
}

/// Whether an entity is a named constant (8.5.13); a dummy argument or a result is none.
pub fn is_constant_entity(of: &DeclaringUnit<'_>, all: Attributes<'_>, name: &[u8]) -> bool
    ensures { result ≡ is_named_constant (unit of.now) (attributes all.entry) name.now }
{
    if !all.is_parameter {
        return false;
    }
    if of.dummies.contains(name) {
        return false;
    }
    !names_answer(of, name)
}

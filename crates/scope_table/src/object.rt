//! Variables by what they are.

ghost use Rattle.std.specs.Prelude.{◌≡◌, map};
ghost use Rattle.std.specs.Option.{option_map};
ghost use Rattle.rule_definitions.specs.Names.{is_home, is_local, is_object, symbol_in};
ghost use Rattle.scope_table.specs.Symbols.{seen_from, symbol as symbol_seen};
ghost use Rattle.scope_table.specs.Scopes.{object_seen, seen_entry};

use crate::symbol::{Entry, Symbol};
use checked_tree::data::{Home, Local, Object};

/// Whether two objects are one.
pub fn is_same_object(one: Object, other: Object) -> bool
    ensures { result ≡ is_object one other }
{
    match (one, other) {
        (Object::Local(one), Object::Local(other)) => is_same_local(one, other),
        (Object::Coarray(one), Object::Coarray(other)) => one == other,
        (Object::Constant(one), Object::Constant(other)) => one == other,
        _ => false,
    }
}

/// Whether two variables that are no coarrays are one.
pub fn is_same_local(one: Local, other: Local) -> bool
    ensures { result ≡ is_local one other }
{
    if !is_same_home(one.home, other.home) {
        return false;
    }
    one.variable == other.variable
}

pub(crate) fn is_same_home(one: Home, other: Home) -> bool
    ensures { result ≡ is_home one other }
{
    match (one, other) {
        (Home::Own, Home::Own) | (Home::Host, Home::Host) => true,
        (Home::Own, Home::Host) | (Home::Host, Home::Own) => false,
    }
}

/// A variable's object, seen from its own scope or from a procedure of it (ISO/IEC 1539-1:2018, 19.5.1.4).
pub fn object_from(home: Home, object: Object) -> Object
    ensures { result ≡ object_seen home object }
{
    match (home, object) {
        (Home::Host, Object::Local(local)) => Object::Local(Local {
            home: Home::Host,
            variable: local.variable,
        }),
        (Home::Host, Object::Coarray(_) | Object::Constant(_)) | (Home::Own, _) => object,
    }
}

// The variable among entries that an object is, seen from their scope or from a procedure of it.
pub(crate) fn symbol_among(entries: &[Entry], home: Home, object: Object) -> Option<&Symbol>
    ensures { option_map (λ x. seen_from home (symbol_seen x.now)) result ≡ symbol_in (map (seen_entry home) entries.now) object }
{
    for entry in entries {
        if let Entry::Variable(symbol) = entry {
            if is_same_object(object_from(home, symbol.object), object) {
                return Some(symbol);
            }
        }
    }
    None
}

//! Variables by their numbers.

ghost use Rattle.std.specs.Prelude.{◌≡◌, ◌++◌, ◌∷◌, ◌<◌, [], length, List, map, slice_get, Some, true, vec_capacity, vec_len};
ghost use Rattle.std.specs.Option.{option_map};
ghost use Rattle.checked_tree.specs.declared.data.Home.{Home};
ghost use Rattle.rule_definitions.specs.Names.{symbol_in};
ghost use Rattle.scope_table.specs.Numbered.{ArePlaced, HasNumber, local_at, local_in};
ghost use Rattle.scope_table.specs.Scopes.{seen_entry};
ghost use Rattle.scope_table.specs.Symbols.{seen_from, symbol as symbol_seen};
ghost use Rattle.scope_table.specs.declared.symbol.Entry.{Entry};

use crate::item::item;
use crate::object::{is_same_home, symbol_among};
use crate::symbol::{Entry, Symbol};
use checked_tree::data::{Home, Object};

// The variable at an entry, if it is no coarray.
fn local_of(entry: &Entry) -> Option<&Symbol>
    ensures { (h : Home) → option_map (λ x. seen_from h (symbol_seen x.now)) result ≡ local_in h (Some entry.now) }
{
    let Entry::Variable(symbol) = entry else {
        return None;
    };
    match symbol.object {
        Object::Local(_) => Some(symbol),
        Object::Coarray(_) | Object::Constant(_) => None,
    }
}

// The variable with a number, if it is no coarray.
fn numbered<'a>(entries: &'a [Entry], places: &[usize], number: u32) -> Option<&'a Symbol>
    ensures { (h : Home) → option_map (λ x. seen_from h (symbol_seen x.now)) result ≡ local_at h entries.now (slice_get places.now number) }
{
    let Some(place) = places.get(number as usize) else {
        return None;
    };
    match item(entries, *place) {
        Some(entry) => local_of(entry),
        None => None,
    }
}

/// The variable among entries that an object is, seen from their scope or from a procedure of it: by its number, where
/// the variables have theirs.
pub(crate) fn symbol_found<'a>(
    entries: &'a [Entry],
    places: &[usize],
    are_numbered: bool,
    home: Home,
    object: Object,
) -> Option<&'a Symbol>
    ensures { ArePlaced are_numbered places.now entries.now → option_map (λ x. seen_from home (symbol_seen x.now)) result ≡ symbol_in (map (seen_entry home) entries.now) object }
{
    if !are_numbered {
        return symbol_among(entries, home, object);
    }
    let Object::Local(local) = object else {
        return symbol_among(entries, home, object);
    };
    if !is_same_home(local.home, home) {
        return symbol_among(entries, home, object);
    }
    numbered(entries, places, local.variable)
}

/// Whether an object is a variable with this number, in its own scope, or no such variable at all.
pub(crate) fn has_number(object: Object, number: usize) -> bool
    ensures { result ≡ true → HasNumber number object }
{
    match object {
        Object::Local(local) => {
            is_same_home(local.home, Home::Own) && local.variable as usize == number
        }
        Object::Coarray(_) | Object::Constant(_) => true,
    }
}

/// Puts the place of an entry to those of the variables, if it is one; whether all of them have their numbers then.
pub(crate) fn place_variable(
    places: &mut Vec<usize>,
    are_numbered: bool,
    next: &Entry,
    place: usize,
) -> bool
    requires { vec_len places.old < vec_capacity places.old }
    ensures { (es : List Entry) → length es ≡ place → ArePlaced are_numbered places.old.items es → ArePlaced result places.new.items (es ++ next.now ∷ []) }
{
    let Entry::Variable(symbol) = next else {
        return are_numbered;
    };
    let is_numbered = has_number(symbol.object, places.len());
    drop(places.push(place));
    are_numbered && is_numbered
}

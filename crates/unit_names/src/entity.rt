//! What USE gives under a name: nothing, an entity, or several.

ghost use Rattle.std.specs.Prelude.{◌≡◌};
ghost use Rattle.module_units.specs.Visible.{same_entity};
ghost use Rattle.unit_names.specs.Found.{entity, found, joined as joined_seen};

/// An entity that USE gives: of a module, by the module's name, or of ISO_FORTRAN_ENV; with its name there.
#[derive(Clone, Copy)]
pub struct Entity<'a> {
    pub module: Option<&'a [u8]>,
    pub name: &'a [u8],
}

/// What USE gives under a name.
#[derive(Clone, Copy)]
pub enum Found<'a> {
    Nothing,
    One(Entity<'a>),
    Several,
}

fn is_same(one: Entity<'_>, other: Entity<'_>) -> bool
    ensures { result ≡ same_entity (entity one.entry) (entity other.entry) }
{
    match one.module {
        None => match other.module {
            None => one.name == other.name,
            Some(_) => false,
        },
        Some(module) => match other.module {
            None => false,
            Some(second) => module == second && one.name == other.name,
        },
    }
}

/// What two USE statements together give under a name.
pub fn joined<'a>(first: Found<'a>, second: Found<'a>) -> Found<'a>
    ensures { found result ≡ joined_seen (found first.entry) (found second.entry) }
{
    match second {
        Found::Nothing => first,
        Found::Several => Found::Several,
        Found::One(other) => match first {
            Found::Nothing => Found::One(other),
            Found::Several => Found::Several,
            Found::One(one) => {
                if is_same(one, other) {
                    Found::One(one)
                } else {
                    Found::Several
                }
            }
        },
    }
}

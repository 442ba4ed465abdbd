//! The names that a scope declares, with what they stand for.

ghost use Rattle.std.specs.Prelude.{◌≡◌, ◌++◌, ◌∷◌, ◌<◌, [], List, ℕ, None, map, vec_len, vec_capacity, false, length, ◌+◌, IfOk, OnOk, OnErr};
ghost use Rattle.std.specs.Option.{option_map};
ghost use Rattle.checked_tree.specs.declared.data.Home.TheVariants.{Host, Own};
ghost use Rattle.rule_definitions.specs.Names.{denoted_in, is_among, symbol_in, variables_of};
ghost use Rattle.rule_definitions.specs.Units.{hosted};
ghost use Rattle.rule_definitions.specs.Declarations.{count_coarrays};
ghost use Rattle.scope_table.specs.Counts.{coarray_count, variable_count};
ghost use Rattle.scope_table.specs.Symbols.{entry, entry_name, entry_meaning, seen_from, symbol as symbol_seen};

use crate::item::item;
use crate::names::Names;
use crate::numbered::{place_variable, symbol_found};
use crate::symbol::{Entry, Symbol};
use caf_base::listing::Text;
use caf_base::refusal::NoMemory;
use checked_tree::data::{Home, Object};
use std::alloc::Global;
use std::marker::Model;

/// The declared names of a scope in order, none of them twice.
#[derive(Drop)]
pub struct Table {
    names: Names,
    entries: Vec<Entry>,
    variables: u32,
    coarrays: u32,
    // Where the variables stand among the entries.
    places: Vec<usize>,
    // Whether each of them that is no coarray has its number in this order.
    are_numbered: bool,
}

impl Model for Table {
    ghost use Rattle.std.specs.Prelude.{List, map, ◌≡◌};
    ghost use Rattle.rule_definitions.specs.Names.{Named};
    ghost use Rattle.scope_table.specs.Symbols.{entry, entry_name};

    ghost Value = { List Named };

    ghost view = { λ t. map entry t.entries.items };

    ghost use Rattle.scope_table.specs.Counts.{variables_in, coarrays_in};
    ghost use Rattle.scope_table.specs.Numbered.{ArePlaced};

    ghost invariant = { λ t. record {
      names : t.names ≡ map entry_name t.entries.items;
      variables : t.variables ≡ variables_in t.entries.items;
      coarrays : t.coarrays ≡ coarrays_in t.entries.items;
      placed : ArePlaced t.are_numbered t.places.items t.entries.items;
    } };
}

impl Table {
    /// No names.
    pub fn new(alloc: Global) -> Table
        ensures { result ≡ [] }
    {
        Table {
            names: Names::new(alloc),
            entries: Vec::new(alloc),
            variables: 0,
            coarrays: 0,
            places: Vec::new(alloc),
            are_numbered: true,
        }
    }

    /// What a name stands for.
    pub fn find(&self, name: &[u8]) -> Option<&Entry>
        ensures { option_map (λ e. entry_meaning e.now) result ≡ denoted_in self.now name.now }
    {
        let Some(place) = self.names.find(name) else {
            return None;
        };
        item(self.entries.as_slice(), place)
    }

    /// All of them.
    pub fn entries(&self) -> &[Entry]
        ensures { map entry result.now ≡ self.now }
    {
        self.entries.as_slice()
    }

    /// The variable among them that an object is, seen from their scope or from a procedure of it (19.5.1.4).
    pub(crate) fn symbol(&self, home: Home, object: Object) -> Option<&Symbol>
        ensures own { home ≡ Own → option_map (λ x. symbol_seen x.now) result ≡ symbol_in self.now object }
        ensures host { home ≡ Host → option_map (λ x. seen_from Host (symbol_seen x.now)) result ≡ symbol_in (map hosted self.now) object }
    {
        symbol_found(
            self.entries.as_slice(),
            self.places.as_slice(),
            self.are_numbered,
            home,
            object,
        )
    }

    /// How many of them are variables.
    pub fn variables(&self) -> u32
        ensures { result ≡ length (variables_of self.now) }
    {
        self.variables
    }

    /// How many of them are coarrays.
    pub fn coarrays(&self) -> u32
        ensures { result ≡ count_coarrays (variables_of self.now) }
    {
        self.coarrays
    }

    /// Puts a name that isn't there yet at the end.
    pub fn add(&mut self, next: Entry) -> Result<(), NoMemory>
        requires { denoted_in self.old (entry_name next) ≡ None }
        ensures added { OnOk result (self.new ≡ self.old ++ entry next ∷ []) }
        ensures kept { OnErr result (self.new ≡ self.old) }
    {
        let (variables, coarrays) = counted(self.variables, self.coarrays, &next)?;
        self.places.reserve(1)?;
        add_name(&mut self.names, &mut self.entries, name_of(&next))?;
        let place = self.entries.len();
        self.are_numbered = place_variable(&mut self.places, self.are_numbered, &next, place);
        drop(self.entries.push(next));
        self.variables = variables;
        self.coarrays = coarrays;
        Ok(())
    }
}

/// The name of an entry.
pub fn name_of(entry: &Entry) -> &Text
    ensures { result.now ≡ entry_name entry.now }
{
    match entry {
        Entry::Variable(symbol) => &symbol.name,
        Entry::Constant(constant) => &constant.name,
    }
}

// Puts a new name behind the others, and makes room for its entry.
fn add_name(names: &mut Names, entries: &mut Vec<Entry>, name: &Text) -> Result<(), NoMemory>
    ensures names { OnOk result (is_among names.old name.now ≡ false → names.new ≡ names.old ++ name.now ∷ []) }
    ensures kept { OnErr result (names.new ≡ names.old) }
    ensures entries { entries.new.items ≡ entries.old.items }
    ensures room { OnOk result (vec_len entries.new < vec_capacity entries.new) }
{
    entries.reserve(1)?;
    names.add(name.copy()?)?;
    Ok(())
}

// How many variables and coarrays there are with one more entry.
fn counted(variables: u32, coarrays: u32, next: &Entry) -> Result<(u32, u32), NoMemory>
    ensures variables { IfOk result (λ c. c.0 ≡ variables + variable_count next.now) }
    ensures coarrays { IfOk result (λ c. c.1 ≡ coarrays + coarray_count next.now) }
{
    let Entry::Variable(symbol) = next else {
        return Ok((variables, coarrays));
    };
    let variables = one_more(variables)?;
    if symbol.corank == 0 {
        return Ok((variables, coarrays));
    }
    Ok((variables, one_more(coarrays)?))
}

fn one_more(number: u32) -> Result<u32, NoMemory>
    ensures { IfOk result (λ n. n ≡ number + 1) }
{
    match number.checked_add(1) {
        Some(next) => Ok(next),
        None => Err(NoMemory),
    }
}

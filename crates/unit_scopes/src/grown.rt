//! Scopes that grow as declarations are read.

ghost use Rattle.std.specs.Prelude.{◌≡◌, ◌++◌, map};
ghost use Rattle.rule_definitions.specs.Units.{hosted};
ghost use Rattle.scope_table.specs.Scopes.{answer_names};

use checked_tree::data::Constant;
use rule_definitions::broken::Broken;
use scope_table::outside::Outside;
use scope_table::pending::Pending;
use scope_table::scope::Scope;
use scope_table::symbol::{Interface, Symbol};
use scope_table::table::Table;
use std::marker::Model;

/// What declarations have made so far: the first of the rules that they break, the names that they declare, and the
/// array constants of the whole program.
#[derive(Drop)]
pub struct Grown {
    pub first: Option<Broken>,
    pub own: Table,
    pub constants: Vec<Constant>,
}

/// What a scope has besides the names that are declared in it and the array constants.
#[derive(Drop)]
pub struct Setting<'a> {
    pub pending: Option<&'a Pending<'a>>,
    pub answer: Option<&'a Symbol>,
    pub host: Option<&'a Table>,
    pub outside: &'a Outside<'a>,
    pub interfaces: &'a [Interface],
}

impl<'a> Model for Setting<'a> {
    ghost use Rattle.std.specs.Prelude.{[], map};
    ghost use Rattle.rule_definitions.specs.Names.{Scope as Names};

    ghost Value = { Names };

    ghost use Rattle.scope_table.specs.Scopes.{pending_of, host_of};
    ghost use Rattle.scope_table.specs.Symbols.{interface};

    ghost view = { λ s. record {
      own = [];
      pending = pending_of s.pending;
      host = host_of s.answer s.host;
      procedures = s.outside.now.procedures;
      accessible = s.outside.now.accessible;
      interfaces = map interface s.interfaces.now;
      constants = [];
    } };
}

impl<'a> Setting<'a> {
    /// The scope with these names and array constants.
    pub fn scope<'b>(&'b self, own: &'b Table, constants: &'b [Constant]) -> Scope<'b>
        ensures { result ≡ record self.now { own = own.now; constants = constants.now } }
    {
        Scope {
            own,
            pending: self.pending,
            answer: self.answer,
            host: self.host,
            outside: self.outside,
            interfaces: self.interfaces,
            constants,
        }
    }

    /// The setting inside of a procedure, whose host has these names: its own names that come later, and its result
    /// where its heading types it.
    pub fn inside<'b>(
        &'b self,
        pending: &'b Pending<'b>,
        answer: Option<&'b Symbol>,
        host: &'b Table,
    ) -> Setting<'b>
        ensures { result ≡ record self.now { pending = pending.now; host = answer_names answer.entry ++ map hosted host.now } }
    {
        Setting {
            pending: Some(pending),
            answer,
            host: Some(host),
            outside: self.outside,
            interfaces: self.interfaces,
        }
    }
}

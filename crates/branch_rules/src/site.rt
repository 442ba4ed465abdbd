//! Where a statement stands.

use checked_tree::data::Local;
use fortran_tree::name::Name;
use scope_table::scope::Scope;

/// A construct around a statement (11.1): a loop with its name and its variable, a SELECT, or one that no branch may
/// leave.
#[derive(Clone, Copy)]
pub enum Around<'a> {
    Loop {
        name: Option<&'a Name>,
        variable: Option<Local>,
    },
    Selection,
    Critical,
    TeamChange,
}

/// The scope of a statement, the constructs around it, outermost first, and how many literals stand before it in the
/// program.
#[derive(Clone, Copy)]
pub struct Site<'a> {
    pub scope: &'a Scope<'a>,
    pub around: &'a [Around<'a>],
    pub literals: u32,
}

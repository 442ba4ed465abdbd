//! Specifiers.

use fortran_tree::name::Name;
use part_rules::part::Part;

/// A specifier as it is written.
#[derive(Drop)]
pub struct Specified {
    pub name: Name,
    pub value: Part,
}

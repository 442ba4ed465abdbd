//! A rule that is broken, and where.

use caf_base::place::Pos;

/// A broken rule: its number, 20 to 59 (docs/use/REFUSALS.md), and the place of the offending name, expression, literal
/// or statement.
#[derive(Clone, Copy)]
pub struct Broken {
    pub rule: u8,
    pub at: Pos,
}

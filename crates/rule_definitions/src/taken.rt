//! Types of operands, conditions and result variables.

/// What an operator takes, what a condition is, what a result variable may be.
#[derive(Clone, Copy)]
pub enum Taken {
    Integers,
    Logicals,
    IntegersOrLogicals,
}

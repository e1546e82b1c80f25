//! What cells of a netlist share a logic cell.

use crate::Origin;

/// What a cell of a netlist is in a logic cell.
#[derive(Clone, Copy)]
pub enum Part {
    /// A look-up table.
    Table,
    /// A flip-flop, and the cell whose output it takes.
    Flop(Option<usize>),
    /// A carry.
    Carry,
    /// None of these.
    Nothing,
}

/// What the two inputs read by which a carry and a look-up table are compared.
#[derive(Clone, Copy, PartialEq, Eq, Hash)]
pub struct Pair {
    /// I0 of a carry, I1 of a look-up table.
    pub first: Origin,
    /// I1 of a carry, I2 of a look-up table.
    pub second: Origin,
}

/// What a cell of a netlist is where carries and look-up tables are brought together.
#[derive(Clone, Copy)]
pub enum Role {
    /// A look-up table with that pair.
    Gives(Pair),
    /// A carry with that pair.
    Takes(Pair),
    /// Neither.
    Neither,
}

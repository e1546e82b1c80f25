//! Logic cells.

use crate::Root;
use ice_net::Reset;

/// How a flip-flop is driven: its control set, which all flip-flops of a tile share.
#[derive(Clone, Copy, PartialEq, Eq, Hash)]
pub struct Control {
    /// The clock.
    pub clock: Option<Root>,
    /// Whether it acts at the falling edge of its clock.
    pub falling: bool,
    /// The enable; where it is missing, the flip-flop is always enabled.
    pub enable: Option<Root>,
    /// The set or reset.
    pub reset: Option<Root>,
}

/// A logic cell: a look-up table, a carry beside its inputs 1 and 2, and a flip-flop behind it.
#[derive(Clone, Copy)]
pub struct LogicCell {
    /// The table: bit j for the inputs' levels that make the number j, input 0 the lowest digit.
    pub table: u16,
    /// What the inputs read; an input that is missing reads 0.
    pub ins: [Option<Root>; 4],
    /// Whether the cell has a carry, of its inputs 1 and 2 and of what comes into it.
    pub carry: bool,
    /// Whether the last input reads what comes into the cell's carry, and not its root.
    pub carry_to_in3: bool,
    /// The flip-flop that takes what the table gives, and how it is set or reset.
    pub flop: Option<(Control, Reset)>,
}

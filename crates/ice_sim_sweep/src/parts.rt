//! The parts that a netlist or a configured chip is compiled to. They name places of one array, the slots. Each signal of a netlist
//! has the slot of its number, and behind them stand one that is always 0 and one that is always 1. Of a chip, slot 0 is always 0 and
//! slot 1 always 1, and each table, carry, flip-flop and pad in use has one of those behind. A port is a pad of the package there, a
//! cell a logic cell, and a signal a slot.
use ice_net::Reset;

/// A look-up table of four inputs.
#[derive(Clone, Copy)]
pub struct Gate {
    /// The output is bit j of the table, with j made of the inputs, the first the lowest digit.
    pub table: u16,
    /// The slot of the first input.
    pub first: u32,
    /// The slot of the second input.
    pub second: u32,
    /// The slot of the third input.
    pub third: u32,
    /// The slot of the fourth input.
    pub fourth: u32,
    /// The slot of the output.
    pub out: u32,
}

/// A signal that takes its level from outside the array.
#[derive(Clone, Copy)]
pub struct Link {
    /// The place of the level: of a port, or of a cell.
    pub from: usize,
    /// The signal.
    pub to: usize,
}

/// What a port drives: the level in one slot, where the level in another is 1.
#[derive(Clone, Copy)]
pub struct Tap {
    /// The slot of the level.
    pub level: u32,
    /// The slot of the enable.
    pub enable: u32,
}

/// A flip-flop.
#[derive(Clone, Copy)]
pub struct Keeper {
    /// Its place in the list of cells.
    pub cell: u32,
    /// The slot of its clock.
    pub clock: u32,
    /// The slot of its data.
    pub datum: u32,
    /// The slot of its enable; where it has none, or none is connected, the one that is always 1.
    pub enable: u32,
    /// The slot of its set or reset; where it has none, or none is connected, the one that is always 0.
    pub set: u32,
    /// Whether it acts at the falling edge of its clock.
    pub falling: bool,
    /// How it is set or reset.
    pub reset: Reset,
}

/// Where the level of a signal comes from.
#[derive(Clone, Copy)]
pub enum Feed {
    /// From nowhere: it is 0.
    Nothing,
    /// From the port at this place.
    Port(usize),
    /// From what the cell at this place keeps.
    Kept(usize),
    /// From a table.
    Made(Gate),
}

/// What a cell keeps from step to step; nothing, where it is no flip-flop.
#[derive(Clone, Copy)]
pub struct Memory {
    /// The level of a flip-flop.
    pub kept: bool,
    /// The level of its clock in the step before.
    pub clock: Option<bool>,
}

//! The cells of a netlist.

use crate::{CellKind, Signals};

/// A cell, and the signals at its ports.
#[derive(Drop)]
pub struct Cell {
    /// What the cell is.
    pub kind: CellKind,
    /// The number of its line in the netlist text, from 1.
    pub line: u32,
    /// The signals at its inputs, in the order of its kind.
    pub ins: Signals,
    /// The signals at its outputs, in the order of its kind.
    pub outs: Signals,
}

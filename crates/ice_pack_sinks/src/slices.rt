//! What the cells, pads and buffers of a design are made by.

use ice_cells::{Origin, Part, Root};

/// What is known of a netlist, by which the cells, pads and buffers of its design are made.
#[derive(Clone, Copy)]
pub struct Slices<'a> {
    /// The origin of each signal.
    pub origins: &'a [Origin],
    /// What each of the netlist's cells is in a logic cell.
    pub parts: &'a [Part],
    /// The flip-flop that alone takes the output of each cell.
    pub takers: &'a [Option<usize>],
    /// The look-up table that each carry shares.
    pub luts: &'a [Option<usize>],
    /// The carry that shares each look-up table.
    pub carriers: &'a [Option<usize>],
    /// The root of the output of each cell; constants and aliases have none.
    pub roots: &'a [Option<Root>],
    /// The number of the logic cell of constant 0, where it is made.
    pub zero: u32,
    /// The number of the logic cell of constant 1, where it is made.
    pub one: u32,
}

//! Points of a chip.

use ice_base::{TileAt, WireNo};

/// A point of a chip: what has a level at one moment and may depend on other points.
#[derive(Clone, Copy)]
pub enum Point {
    /// A wire.
    Wire(WireNo),
    /// The carry out of a logic cell, which is told by its tile and its number there, from 0 to 7.
    Carry { tile: TileAt, cell: u8 },
}

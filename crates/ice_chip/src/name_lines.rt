//! The lines that give names to wires.

use crate::PlacedName;

/// A wire and the line of one of its names.
#[derive(Clone, Copy)]
pub struct WireLine {
    /// The wire.
    pub wire: u32,
    /// The line.
    pub line: u32,
}

/// A pin, and the line that names a wire as it.
#[derive(Drop)]
pub struct PinLine {
    /// The pin.
    pub pin: PlacedName,
    /// The line.
    pub line: u32,
}

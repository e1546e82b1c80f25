//! What the rows of a chip database speak of: kinds of tiles, pads, and what is known of a tile.

use ice_base::TileAt;

/// The kinds of tiles that hold configuration bits.
#[derive(Clone, Copy, Debug, PartialEq, Eq, Hash)]
pub enum TileKind {
    /// Two pads at the border of the chip.
    Io,
    /// Eight logic cells.
    Logic,
    /// The lower half of a block of memory.
    RamBottom,
    /// The upper half of a block of memory.
    RamTop,
}

/// A pad: one of the two of an IO tile, or a pin of a block RAM.
#[derive(Clone, Copy, Debug, PartialEq, Eq, Hash)]
pub struct Pad {
    /// The tile of the pad.
    pub tile: TileAt,
    /// Which of the tile's two pads: 0 or 1. A pin of a block RAM has its number and 2 more.
    pub pio: u8,
}

/// What is known of the tile at a place.
#[derive(Clone, Copy)]
pub struct TileLine {
    /// The kind of the tile.
    pub kind: TileKind,
    /// The number of the line of its heading.
    pub line: u32,
}

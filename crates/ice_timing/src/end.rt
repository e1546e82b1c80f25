//! Where paths end.

use ice_base::TileAt;
use ice_chip::Pad;
use ice_decode::Point;

/// What a path leads to.
#[derive(Clone, Copy)]
pub enum End {
    /// The flip-flop of a cell.
    Flop {
        /// The cell's tile.
        tile: TileAt,
        /// The cell's number in its tile, from 0 to 7.
        cell: u8,
    },
    /// A pad that the chip drives.
    Pad(Pad),
    /// A block RAM in use.
    Ram {
        /// The place of its lower tile.
        lower: TileAt,
    },
}

/// By what a path gets into its end.
#[derive(Clone, Copy)]
pub enum Door {
    /// By an input of the flip-flop's cell, through its table.
    Table,
    /// By the clock enable of the flip-flop's tile, or by its set and reset.
    Control,
    /// By the output or the enable wire of the pad.
    Outside,
    /// By the output wire of the pad, into its register.
    Register,
    /// By a wire of a port of the block RAM.
    Port,
}

/// An end, and one of the points by which a path may get there.
#[derive(Clone, Copy)]
pub struct Entry {
    /// The end.
    pub end: End,
    /// By what it is entered.
    pub door: Door,
    /// The last point of the path.
    pub last: Point,
}

/// A path and how long a signal takes on it, in picoseconds.
#[derive(Drop)]
pub struct TimedPath {
    /// Its points in order, each with when the signal is there.
    pub points: Vec<(Point, u64)>,
    /// What it leads to.
    pub end: End,
    /// When the signal is there: its length.
    pub at: u64,
}

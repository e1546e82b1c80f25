//! What levels come from.

use ice_base::TileAt;

/// What the level of a point of a configured chip comes from, once all wires that pass it on are passed. Cells are numbered from 0 to 7
/// in their tile.
#[derive(Clone, Copy)]
pub enum LevelRoot {
    /// A fixed level.
    Fixed(bool),
    /// What the pad of this number of the package gives to its wire.
    Input(usize),
    /// What the register keeps that takes what the pad of this number gives.
    Taken(usize),
    /// What the pad of this number gives to that register. No point has this root: the register alone reads it.
    Given(usize),
    /// What the register keeps that the pad of this number is driven with. No point has this root: the pad alone reads it.
    Kept(usize),
    /// The level of the pad of this number, which feeds a global.
    Level(usize),
    /// The look-up table of a cell.
    Table {
        /// The cell's tile.
        tile: TileAt,
        /// The cell.
        cell: u8,
    },
    /// The flip-flop of a cell.
    Register {
        /// The cell's tile.
        tile: TileAt,
        /// The cell.
        cell: u8,
    },
    /// The carry of a cell.
    Sum {
        /// The cell's tile.
        tile: TileAt,
        /// The cell.
        cell: u8,
    },
}

//! Places of a chip.

use ice_base::TileAt;
use ice_chip::Chip;

/// How many places are told apart along an axis, one for each bit of a word.
pub const PLACES: u16 = 64;

/// A column and a row, each below 64.
#[derive(Clone, Copy)]
pub struct Place {
    /// The column.
    pub column: u8,
    /// The row.
    pub row: u8,
}

/// How tiles are told apart: a place is so many columns wide and as many rows high, one up to 64 columns and rows.
#[derive(Clone, Copy)]
pub struct Grid {
    step: u16,
}

// The number of a column's or row's place.
fn place_along(tile: u16, step: u16) -> u8 {
    let place = tile / step.max(1);
    place.min(63) as u8
}

impl Grid {
    /// The finest grid of 64 places each way that takes the whole chip.
    pub fn of_chip(chip: &Chip) -> Grid {
        let mut last = 0;
        for tile in chip.tiles() {
            last = tile.at.x.max(tile.at.y).max(last);
        }
        Grid {
            step: last / PLACES + 1,
        }
    }

    /// The place of a tile.
    pub fn place_of(&self, tile: TileAt) -> Place {
        Place {
            column: place_along(tile.x, self.step),
            row: place_along(tile.y, self.step),
        }
    }
}

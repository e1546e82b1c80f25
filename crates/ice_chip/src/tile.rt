//! Tiles with their kinds.
ghost use Rattle.std.specs.Prelude.{◌≡◌};
ghost use Rattle.ice_chip.specs.Database.{columns, tile_known};
ghost use Rattle.ice_chip.specs.Views.{parts_view};

use crate::{ChipParts, TileKind, TileLine};
use ice_base::TileAt;

/// A tile of the chip.
#[derive(Clone, Copy)]
pub struct Tile {
    /// Its place.
    pub at: TileAt,
    /// Its kind.
    pub kind: TileKind,
}

impl TileKind {
    /// How many columns the bits of such a tile have; they have 16 rows.
    pub fn columns(self) -> u8
        ensures { result ≡ columns self }
    {
        match self {
            TileKind::Io => 18,
            TileKind::Logic => 54,
            TileKind::RamBottom => 42,
            TileKind::RamTop => 42,
        }
    }
}

impl ChipParts {
    /// The tile at a place, or None exactly where no tile stands there. It takes no memory.
    pub fn tile_at(&self, tile: TileAt) -> Option<TileLine>
        ensures { result ≡ tile_known (parts_view self.now).tiles tile }
    {
        self.tiles.get(&tile).copied()
    }
}

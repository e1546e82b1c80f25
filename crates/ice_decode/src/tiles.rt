//! The logic tiles of a chip.
ghost use Rattle.std.specs.Prelude.{◌≡◌, IfOk};
ghost use Rattle.ice_decode.specs.Cells.{logic_tiles};

use ice_base::{NoMemory, TileAt};
use ice_chip::{Chip, TileKind};
use std::alloc::Global;

/// The places of the logic tiles, in the order of the database.
///
/// # Errors
/// Want of memory alone.
pub fn logic_tiles(alloc: Global, chip: &Chip) -> Result<Vec<TileAt>, NoMemory>
    ensures { IfOk result (λ tiles. tiles.items ≡ logic_tiles chip.now) }
{
    let mut tiles = Vec::new(alloc);
    for tile in chip.tiles() {
        if let TileKind::Logic = tile.kind {
            tiles.push(tile.at)?;
        }
    }
    Ok(tiles)
}

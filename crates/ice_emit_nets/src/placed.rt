//! Tiles of placed designs.
ghost use Rattle.std.specs.Prelude.{◌≡◌, slice_get};

use ice_base::TileAt;

/// The tile of that number.
pub fn tile_at(tiles: &[TileAt], k: usize) -> Option<TileAt>
    ensures { result ≡ slice_get tiles.now k }
{
    tiles.get(k).copied()
}

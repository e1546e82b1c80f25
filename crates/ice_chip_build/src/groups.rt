//! Groups of switches at places without a tile, and with bits that their tile doesn't have.
ghost use Rattle.std.specs.Prelude.{◌≡◌};
ghost use Rattle.ice_chip.specs.Database.{tile_known};
ghost use Rattle.ice_chip.specs.WholeFaults.{group_without_tile, has_bit_beyond, exceeds, group_beyond_tile};
ghost use Rattle.ice_chip.specs.Views.{parts_view};

use ice_base::{BitAt, TileAt};
use ice_chip::{ChipParts, TileLine};

/// A place with the tile there.
pub fn placed_tile(parts: &ChipParts, tile: TileAt) -> (TileAt, Option<TileLine>)
    ensures place { result.0 ≡ tile }
    ensures tile { result.1 ≡ tile_known (parts_view parts.now).tiles tile }
{
    (tile, parts.tile_at(tile))
}

/// A place with the tile there, by those of the last place, where that is the same. Most groups stand where the one before
/// them does.
pub fn tile_again(
    parts: &ChipParts,
    last: (TileAt, Option<TileLine>),
    tile: TileAt,
) -> (TileAt, Option<TileLine>)
    requires { last.1 ≡ tile_known (parts_view parts.now).tiles last.0 }
    ensures place { result.0 ≡ tile }
    ensures tile { result.1 ≡ tile_known (parts_view parts.now).tiles tile }
{
    if last.0 == tile {
        return last;
    }
    placed_tile(parts, tile)
}

/// The line of the first group that stands at a place without a tile. It takes no memory.
pub fn group_without_tile(parts: &ChipParts) -> Option<u32>
    ensures { result
        ≡ group_without_tile (parts_view parts.now).tiles (parts_view parts.now).groups }
{
    let mut last = placed_tile(parts, TileAt { x: 0, y: 0 });
    for group in &parts.groups {
        last = tile_again(parts, last, group.tile);
        if last.1.is_none() {
            return Some(group.line);
        }
    }
    None
}

// Whether one of these bits is at a column that there isn't.
fn has_bit_beyond(limit: u8, bits: &[BitAt]) -> bool
    ensures { result ≡ has_bit_beyond limit bits.now }
{
    for bit in bits {
        if bit.col >= limit {
            return true;
        }
    }
    false
}

// Whether there is a tile that lacks one of these bits.
fn exceeds(tile: Option<TileLine>, bits: &[BitAt]) -> bool
    ensures { result ≡ exceeds tile bits.now }
{
    match tile {
        None => false,
        Some(tile) => has_bit_beyond(tile.kind.columns(), bits),
    }
}

/// The line of the first group with a bit in a column that its tile doesn't have. It takes no memory.
pub fn group_beyond_tile(parts: &ChipParts) -> Option<u32>
    ensures { result
        ≡ group_beyond_tile (parts_view parts.now).tiles (parts_view parts.now).groups }
{
    let mut last = placed_tile(parts, TileAt { x: 0, y: 0 });
    for group in &parts.groups {
        last = tile_again(parts, last, group.tile);
        if exceeds(last.1, &group.bits) {
            return Some(group.line);
        }
    }
    None
}

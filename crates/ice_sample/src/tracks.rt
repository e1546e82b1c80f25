//! The groups of tracks.
ghost use Rattle.std.specs.Prelude.{◌≡◌, ◌++◌, ◌+◌, ◌*◌, ◌<◌, ◌≤◌, OnOk};
ghost use Rattle.ice_base.specs.Lines.{text_of_lines};
ghost use Rattle.ice_sample.specs.Tiles.{IsWithin, first_wire};
ghost use Rattle.ice_sample.specs.Groups.{track_size, outputs, tracks_beside, group_lines, groups_from, track_group, track_groups};

use crate::grid::{Grid, Tile, TileKind};
use crate::groups::put_group;
use crate::sources::{add_outputs, add_tracks_beside, track_place};
use ice_base::NoMemory;

// How many bits the group of a track has.
fn track_size(kind: TileKind) -> u16
    ensures size { result ≡ track_size kind }
    ensures few { result ≤ 4 }
{
    match kind {
        TileKind::Io => 3,
        TileKind::Logic => 4,
    }
}

// Lists the sources of a track: the tile's outputs, and the same track of the tiles beside it.
fn list_track_sources(
    sources: &mut Vec<u32>,
    grid: &Grid,
    tile: Tile,
    track: u32,
) -> Result<(), NoMemory>
    requires tile { IsWithin grid.now.width grid.now.height tile }
    requires track { track < 64 }
    ensures { OnOk result
        (sources.new.items ≡ outputs tile.kind (first_wire grid.now.width grid.now.height tile.at)
        ++ tracks_beside grid.now.width grid.now.height track tile.at) }
{
    let first = grid.first_wire(tile.at);
    sources.clear();
    add_outputs(sources, tile.kind, first)?;
    add_tracks_beside(sources, grid, track, tile.at)
}

// Writes the group of a track, whose bits begin with this one.
fn put_track(
    text: &mut Vec<u8>,
    sources: &mut Vec<u32>,
    grid: &Grid,
    tile: Tile,
    bit: u16,
    track: u32,
) -> Result<(), NoMemory>
    requires tile { IsWithin grid.now.width grid.now.height tile }
    requires bit { bit ≤ 900 }
    requires track { track < 64 }
    ensures { OnOk result (text.new.items ≡ text.old.items ++ text_of_lines (group_lines tile.kind
        tile.at bit (track_group grid.now.width grid.now.height tile.kind tile.at track))) }
{
    let target = grid.first_wire(tile.at) + track_place(tile.kind) + track;
    let size = track_size(tile.kind);
    list_track_sources(sources, grid, tile, track)?;
    put_group(text, tile, bit, size, target, sources)
}

/// Writes the groups of the tracks of a tile, whose bits begin with this one.
pub fn put_tracks(
    text: &mut Vec<u8>,
    sources: &mut Vec<u32>,
    grid: &Grid,
    tile: Tile,
    first: u16,
) -> Result<(), NoMemory>
    requires tile { IsWithin grid.now.width grid.now.height tile }
    requires first { first ≤ 200 }
    ensures { OnOk result (text.new.items ≡ text.old.items ++ text_of_lines (groups_from tile.kind
        tile.at first (track_groups grid.now.width grid.now.height tile.kind tile.at))) }
{
    let size = track_size(tile.kind);
    let mut bit = first;
    for track in 0..64 {
        put_track(text, sources, grid, tile, bit, track)?;
        bit += size;
    }
    Ok(())
}

//! The wires that groups of switches take: tracks, pins and carries.
ghost use Rattle.std.specs.Prelude.{◌≡◌, ◌++◌, ◌+◌, ◌*◌, ◌<◌, ◌≤◌, OnOk};
ghost use Rattle.std.specs.List.{flat_map};
ghost use Rattle.ice_sample.specs.Tiles.{first_wire};
ghost use Rattle.ice_sample.specs.Kinds.{kind_at};
ghost use Rattle.ice_sample.specs.Groups.{track_place, outputs, west, south, track_at, tracks_beside, pin_tracks, carry_into, carry_for, carry_out, carry_in};

use crate::grid::{Grid, TileKind, kind_at};
use ice_base::{NoMemory, TileAt};

/// Where the tracks of a tile of a kind stand among its wires.
pub fn track_place(kind: TileKind) -> u32
    ensures place { result ≡ track_place kind }
    ensures few { result ≤ 52 }
{
    match kind {
        TileKind::Io => 7,
        TileKind::Logic => 52,
    }
}

/// Puts the outputs of a tile behind the sources, from the tile's first wire.
pub fn add_outputs(sources: &mut Vec<u32>, kind: TileKind, first: u32) -> Result<(), NoMemory>
    requires { first ≤ 500000 }
    ensures { OnOk result (sources.new.items ≡ sources.old.items ++ outputs kind first) }
{
    match kind {
        TileKind::Io => add_inputs_of_pads(sources, first),
        TileKind::Logic => add_outputs_of_cells(sources, first),
    }
}

// Puts what the pads of an IO tile take in behind the sources.
fn add_inputs_of_pads(sources: &mut Vec<u32>, first: u32) -> Result<(), NoMemory>
    requires { first ≤ 500000 }
    ensures { OnOk result (sources.new.items ≡ sources.old.items ++ outputs TileKind.Io first) }
{
    for pad in 0..2 {
        sources.push(first + 3 * pad)?;
    }
    Ok(())
}

// Puts the outputs of the cells of a logic tile behind the sources.
fn add_outputs_of_cells(sources: &mut Vec<u32>, first: u32) -> Result<(), NoMemory>
    requires { first ≤ 500000 }
    ensures { OnOk result (sources.new.items ≡ sources.old.items ++ outputs TileKind.Logic first) }
{
    for cell in 0..8 {
        sources.push(first + 6 * cell + 4)?;
    }
    Ok(())
}

// Puts a track of the tile at a place behind the sources, if there is a tile.
fn add_track(sources: &mut Vec<u32>, grid: &Grid, track: u32, at: TileAt) -> Result<(), NoMemory>
    requires { track ≤ 64 }
    ensures { OnOk result (sources.new.items
        ≡ sources.old.items ++ track_at grid.now.width grid.now.height track at) }
{
    match kind_at(grid.width, grid.height, at) {
        None => Ok(()),
        Some(kind) => {
            sources.push(grid.first_wire(at) + track_place(kind) + track)?;
            Ok(())
        }
    }
}

// Puts a track of the tile to the west of a place behind the sources, if there is one.
fn add_west_track(
    sources: &mut Vec<u32>,
    grid: &Grid,
    track: u32,
    at: TileAt,
) -> Result<(), NoMemory>
    requires { track ≤ 64 }
    ensures { OnOk result (sources.new.items
        ≡ sources.old.items ++ flat_map (track_at grid.now.width grid.now.height track) (west at)) }
{
    if at.x == 0 {
        return Ok(());
    }
    let west = TileAt {
        x: at.x - 1,
        y: at.y,
    };
    add_track(sources, grid, track, west)
}

// Puts a track of the tile to the south of a place behind the sources, if there is one.
fn add_south_track(
    sources: &mut Vec<u32>,
    grid: &Grid,
    track: u32,
    at: TileAt,
) -> Result<(), NoMemory>
    requires { track ≤ 64 }
    ensures { OnOk result (sources.new.items ≡ sources.old.items
        ++ flat_map (track_at grid.now.width grid.now.height track) (south at)) }
{
    if at.y == 0 {
        return Ok(());
    }
    let south = TileAt {
        x: at.x,
        y: at.y - 1,
    };
    add_track(sources, grid, track, south)
}

/// Puts a track of the tiles to the west, east, south and north of a place behind the sources, of those that there are.
pub fn add_tracks_beside(
    sources: &mut Vec<u32>,
    grid: &Grid,
    track: u32,
    at: TileAt,
) -> Result<(), NoMemory>
    requires track { track ≤ 64 }
    requires column { at.x < 64 }
    requires row { at.y < 64 }
    ensures { OnOk result (sources.new.items
        ≡ sources.old.items ++ tracks_beside grid.now.width grid.now.height track at) }
{
    let east = TileAt {
        x: at.x + 1,
        y: at.y,
    };
    let north = TileAt {
        x: at.x,
        y: at.y + 1,
    };
    add_west_track(sources, grid, track, at)?;
    add_track(sources, grid, track, east)?;
    add_south_track(sources, grid, track, at)?;
    add_track(sources, grid, track, north)
}

/// Puts the tracks that a pin reads behind the sources, from the tile's first track.
pub fn add_pin_tracks(sources: &mut Vec<u32>, tracks: u32, pin: u32) -> Result<(), NoMemory>
    requires tracks { tracks ≤ 501000 }
    requires pin { pin ≤ 64 }
    ensures { OnOk result (sources.new.items ≡ sources.old.items ++ pin_tracks tracks pin) }
{
    for step in 0..8 {
        sources.push(tracks + (pin + 9 * step) % 64)?;
    }
    Ok(())
}

// The carry into a cell of a logic tile, from the tile's first wire.
fn carry_into(first: u32, cell: u32) -> u32
    requires first { first ≤ 500000 }
    requires cell { cell ≤ 8 }
    ensures { result ≡ carry_into first cell }
{
    if cell == 0 {
        first + 51
    } else {
        first + 6 * (cell - 1) + 5
    }
}

/// Puts the carry into a cell behind the sources, for input 3 of the cell.
pub fn add_carry_for(
    sources: &mut Vec<u32>,
    first: u32,
    cell: u32,
    input: u32,
) -> Result<(), NoMemory>
    requires first { first ≤ 500000 }
    requires cell { cell ≤ 8 }
    ensures { OnOk result (sources.new.items ≡ sources.old.items ++ carry_for first cell input) }
{
    if input == 3 {
        sources.push(carry_into(first, cell))?;
    }
    Ok(())
}

// Puts the carry out of the tile at a place behind the sources, if that is a logic tile.
fn add_carry_out(sources: &mut Vec<u32>, grid: &Grid, at: TileAt) -> Result<(), NoMemory>
    ensures { OnOk result (sources.new.items
        ≡ sources.old.items ++ carry_out (kind_at grid.now.width grid.now.height at)
        (first_wire grid.now.width grid.now.height at)) }
{
    match kind_at(grid.width, grid.height, at) {
        None => Ok(()),
        Some(TileKind::Io) => Ok(()),
        Some(TileKind::Logic) => {
            sources.push(grid.first_wire(at) + 47)?;
            Ok(())
        }
    }
}

/// Puts the carry into the tile at a place behind the sources, if there is one.
pub fn add_carry_in(sources: &mut Vec<u32>, grid: &Grid, at: TileAt) -> Result<(), NoMemory>
    ensures { OnOk result
        (sources.new.items ≡ sources.old.items ++ carry_in grid.now.width grid.now.height at) }
{
    if at.y == 0 {
        return Ok(());
    }
    let south = TileAt {
        x: at.x,
        y: at.y - 1,
    };
    add_carry_out(sources, grid, south)
}

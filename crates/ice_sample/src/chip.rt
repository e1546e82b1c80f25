//! The sample chip.
ghost use Rattle.std.specs.Prelude.{◌≡◌, ◌++◌, ◌<◌, ◌≤◌, OnOk, OnErr};
ghost use Rattle.ice_base.specs.Lines.{text_of_lines};
ghost use Rattle.ice_sample.specs.Tiles.{IsWithin};
ghost use Rattle.ice_sample.specs.Groups.{own_group_lines, tile_group_lines, all_group_lines};
ghost use Rattle.ice_sample.specs.Chip.{sections_of, layout_lines, sample_chip_text};

use crate::bits::{put_io_functions, put_logic_functions};
use crate::grid::{Grid, Tile, TileKind};
use crate::pads::{Pad, io_places, logic_places, pads_at};
use crate::pins::{put_carry, put_controls, put_inputs, put_io_pins};
use crate::sections::{
    put_column_buffers, put_device, put_globals, put_input_enables, put_pins, put_tiles,
};
use crate::tracks::put_tracks;
use crate::wires::put_wires;
use ice_base::{NoMemory, TileAt};
use std::alloc::Global;

// Writes the sections that say what the chip has.
fn put_sections(
    text: &mut Vec<u8>,
    grid: &Grid,
    io: &[TileAt],
    pads: &[Pad],
    logic: &[TileAt],
) -> Result<(), NoMemory>
    ensures { OnOk result (text.new.items ≡ text.old.items ++ text_of_lines (sections_of
        grid.now.width grid.now.height io.now pads.now logic.now grid.now.tiles.items)) }
{
    put_device(text, grid)?;
    put_pins(text, pads)?;
    put_globals(text, io)?;
    put_input_enables(text, pads)?;
    put_column_buffers(text, logic)?;
    put_tiles(text, &grid.tiles)?;
    Ok(())
}

// Finds what the chip has, and writes the sections that say it.
fn put_layout(alloc: Global, text: &mut Vec<u8>, grid: &Grid) -> Result<(), NoMemory>
    ensures { OnOk result (text.new.items ≡ text.old.items
        ++ text_of_lines (layout_lines grid.now.width grid.now.height grid.now.tiles.items)) }
{
    let io = io_places(alloc, &grid.tiles)?;
    let pads = pads_at(alloc, &io)?;
    let logic = logic_places(alloc, &grid.tiles)?;
    put_sections(text, grid, &io, &pads, &logic)
}

// Writes the groups of an IO tile, from its first wire.
fn put_io_groups(
    text: &mut Vec<u8>,
    sources: &mut Vec<u32>,
    grid: &Grid,
    at: TileAt,
    first: u32,
) -> Result<(), NoMemory>
    requires column { at.x < grid.now.width }
    requires row { at.y < grid.now.height }
    requires first { first ≤ 500000 }
    ensures { OnOk result (text.new.items ≡ text.old.items
        ++ text_of_lines (own_group_lines grid.now.width grid.now.height TileKind.Io at first)) }
{
    let tile = Tile {
        at,
        kind: TileKind::Io,
    };
    put_tracks(text, sources, grid, tile, 16)?;
    put_io_pins(text, sources, tile, first, 208)
}

// Writes the groups of a logic tile, from its first wire.
fn put_logic_groups(
    text: &mut Vec<u8>,
    sources: &mut Vec<u32>,
    grid: &Grid,
    at: TileAt,
    first: u32,
) -> Result<(), NoMemory>
    requires column { at.x < grid.now.width }
    requires row { at.y < grid.now.height }
    requires first { first ≤ 500000 }
    ensures { OnOk result (text.new.items ≡ text.old.items
        ++ text_of_lines (own_group_lines grid.now.width grid.now.height TileKind.Logic at first)) }
{
    let tile = Tile {
        at,
        kind: TileKind::Logic,
    };
    put_tracks(text, sources, grid, tile, 170)?;
    put_inputs(text, sources, tile, first, 426)?;
    put_controls(text, sources, tile, first, 554)?;
    put_carry(text, sources, grid, tile, first, 569)?;
    Ok(())
}

// Writes the groups of a tile.
fn put_tile_groups(
    text: &mut Vec<u8>,
    sources: &mut Vec<u32>,
    grid: &Grid,
    tile: Tile,
) -> Result<(), NoMemory>
    requires { IsWithin grid.now.width grid.now.height tile }
    ensures { OnOk result (text.new.items
        ≡ text.old.items ++ text_of_lines (tile_group_lines grid.now.width grid.now.height tile)) }
{
    let first = grid.first_wire(tile.at);
    match tile.kind {
        TileKind::Io => put_io_groups(text, sources, grid, tile.at, first),
        TileKind::Logic => put_logic_groups(text, sources, grid, tile.at, first),
    }
}

// Writes the sections of the groups.
fn put_groups(alloc: Global, text: &mut Vec<u8>, grid: &Grid) -> Result<(), NoMemory>
    ensures { OnOk result (text.new.items ≡ text.old.items
        ++ text_of_lines (all_group_lines grid.now.width grid.now.height grid.now.tiles.items)) }
{
    let mut sources = Vec::new(alloc);
    for tile in &grid.tiles {
        put_tile_groups(text, &mut sources, grid, *tile)?;
    }
    Ok(())
}

// Writes the text of the chip of a grid.
fn put_chip(alloc: Global, text: &mut Vec<u8>, grid: &Grid) -> Result<(), NoMemory>
    ensures { OnOk result
        (text.new.items ≡ text.old.items ++ sample_chip_text grid.now.width grid.now.height) }
{
    put_layout(alloc, text, grid)?;
    put_io_functions(text)?;
    put_logic_functions(text)?;
    put_wires(text, grid)?;
    put_groups(alloc, text, grid)?;
    Ok(())
}

/// Appends the text of the sample chip of this width and height, each from 4 to 64: a chip database with IO tiles at
/// its border, but not at the corners, and logic tiles inside. Its text takes about 4 megabytes for 14 by 18 tiles, and
/// is made apart from what it is appended to, so that want of memory changes nothing.
///
/// # Errors
/// Want of memory alone.
pub fn sample_chip(
    alloc: Global,
    width: u16,
    height: u16,
    out: &mut Vec<u8>,
) -> Result<(), NoMemory>
    requires width { (4 ≤ width) × (width ≤ 64) }
    requires height { (4 ≤ height) × (height ≤ 64) }
    ensures ok { OnOk result (out.new.items ≡ out.old.items ++ sample_chip_text width height) }
    ensures err { OnErr result (out.new.items ≡ out.old.items) }
{
    let grid = Grid::new(alloc, width, height)?;
    let mut text = Vec::new(alloc);
    put_chip(alloc, &mut text, &grid)?;
    out.extend_from_slice(&text)?;
    Ok(())
}

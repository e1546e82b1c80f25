//! The sections of the wires: the names of each wire.
ghost use Rattle.std.specs.Prelude.{◌≡◌, ◌++◌, ◌+◌, ◌<◌, ◌≤◌, ◌∷◌, [], List, ℕ, map, length, codes, decimal, All, OnOk};
ghost use Rattle.ice_base.specs.Lines.{text_of_lines};
ghost use Rattle.ice_sample.specs.Tiles.{IsWithin};
ghost use Rattle.ice_sample.specs.Lines.{place_words};
ghost use Rattle.ice_sample.specs.Kinds.{kind_at};
ghost use Rattle.ice_sample.specs.Wires.{wire_heading, name_line, wire_lines, named_wires, global_wire_lines, all_global_lines, track_names, io_names, cell_name, cell_pins, cell_names, control_names, carry_in_line, own_wire_lines, tile_wire_lines, all_wire_lines};

use crate::grid::{Grid, Tile, TileKind, kind_at};
use crate::text::{end_line, put_line, put_place, put_worded};
use ice_base::{NoMemory, TileAt};

// The names of the wires of an IO tile before its tracks.
const IO_NAMES: [&[u8]; 7] = [
    b"io_0/D_IN_0",
    b"io_0/D_OUT_0",
    b"io_0/OUT_ENB",
    b"io_1/D_IN_0",
    b"io_1/D_OUT_0",
    b"io_1/OUT_ENB",
    b"fabout",
];

// The pins of a logic cell.
const CELL_PINS: [&[u8]; 6] = [b"/in_0", b"/in_1", b"/in_2", b"/in_3", b"/out", b"/cout"];

// The names of the wires that all cells of a logic tile share.
const CONTROL_NAMES: [&[u8]; 4] = [
    b"lutff_global/clk",
    b"lutff_global/cen",
    b"lutff_global/s_r",
    b"carry_in_mux",
];

// Writes the heading of a wire.
fn put_wire_heading(text: &mut Vec<u8>, wire: u32) -> Result<(), NoMemory>
    ensures { OnOk result
        (text.new.items ≡ text.old.items ++ text_of_lines (wire_heading wire ∷ [])) }
{
    put_worded(text, b".net ", u64::from(wire))?;
    end_line(text)
}

// Writes the row of a name.
fn put_name(text: &mut Vec<u8>, at: TileAt, name: &[u8]) -> Result<(), NoMemory>
    ensures { OnOk result
        (text.new.items ≡ text.old.items ++ text_of_lines (name_line at name.now ∷ [])) }
{
    put_place(text, at)?;
    text.push(b' ')?;
    put_line(text, name)
}

// Writes the row of a name that ends in a number.
fn put_numbered_name(
    text: &mut Vec<u8>,
    at: TileAt,
    name: &[u8],
    number: u32,
) -> Result<(), NoMemory>
    ensures { OnOk result (text.new.items
        ≡ text.old.items ++ text_of_lines (name_line at (name.now ++ decimal number) ∷ [])) }
{
    put_place(text, at)?;
    text.push(b' ')?;
    put_worded(text, name, u64::from(number))?;
    end_line(text)
}

// Writes the row of a name of a logic cell.
fn put_cell_name(text: &mut Vec<u8>, at: TileAt, cell: u32, pin: &[u8]) -> Result<(), NoMemory>
    ensures { OnOk result (text.new.items
        ≡ text.old.items ++ text_of_lines (name_line at (cell_name cell pin.now) ∷ [])) }
{
    put_place(text, at)?;
    put_worded(text, b" lutff_", u64::from(cell))?;
    put_line(text, pin)
}

// Writes a wire with one name.
fn put_wire(text: &mut Vec<u8>, at: TileAt, wire: u32, name: &[u8]) -> Result<(), NoMemory>
    ensures { OnOk result
        (text.new.items ≡ text.old.items ++ text_of_lines (wire_lines at wire name.now)) }
{
    put_wire_heading(text, wire)?;
    put_name(text, at, name)
}

// Writes a wire with the name of a pin of a logic cell.
fn put_cell_wire(
    text: &mut Vec<u8>,
    at: TileAt,
    wire: u32,
    cell: u32,
    pin: &[u8],
) -> Result<(), NoMemory>
    ensures { OnOk result (text.new.items
        ≡ text.old.items ++ text_of_lines (wire_lines at wire (cell_name cell pin.now))) }
{
    put_wire_heading(text, wire)?;
    put_cell_name(text, at, cell, pin)
}

// Writes a track.
fn put_track_wire(text: &mut Vec<u8>, at: TileAt, wire: u32, track: u32) -> Result<(), NoMemory>
    ensures { OnOk result (text.new.items
        ≡ text.old.items ++ text_of_lines (wire_lines at wire (codes "trk_" ++ decimal track))) }
{
    put_wire_heading(text, wire)?;
    put_numbered_name(text, at, b"trk_", track)
}

// Writes a global wire, which has its name in each of the tiles.
fn put_global_wire(text: &mut Vec<u8>, tiles: &[Tile], global: u32) -> Result<(), NoMemory>
    ensures { OnOk result
        (text.new.items ≡ text.old.items ++ text_of_lines (global_wire_lines tiles.now global)) }
{
    put_wire_heading(text, global)?;
    for tile in tiles {
        put_numbered_name(text, tile.at, b"glb_netwk_", global)?;
    }
    Ok(())
}

// Writes the global wires.
fn put_global_wires(text: &mut Vec<u8>, tiles: &[Tile]) -> Result<(), NoMemory>
    ensures { OnOk result
        (text.new.items ≡ text.old.items ++ text_of_lines (all_global_lines tiles.now)) }
{
    for global in 0..8 {
        put_global_wire(text, tiles, global)?;
    }
    Ok(())
}

// Writes wires with one name each, numbered from the first.
fn put_named_wires(
    text: &mut Vec<u8>,
    at: TileAt,
    first: u32,
    names: &[&[u8]],
) -> Result<(), NoMemory>
    requires few { length names.now ≤ 64 }
    requires first { first ≤ 501000 }
    ensures { OnOk result (text.new.items ≡ text.old.items
        ++ text_of_lines (named_wires at first (map (λ name. name.now) names.now))) }
{
    let mut wire = first;
    for name in names {
        put_wire(text, at, wire, name)?;
        wire += 1;
    }
    Ok(())
}

// Writes the wires of a logic cell, with a name for each of its pins.
fn put_cell_wires(
    text: &mut Vec<u8>,
    at: TileAt,
    first: u32,
    cell: u32,
    pins: &[&[u8]],
) -> Result<(), NoMemory>
    requires few { length pins.now ≤ 64 }
    requires first { first ≤ 501000 }
    ensures { OnOk result (text.new.items ≡ text.old.items
        ++ text_of_lines (named_wires at first (map (λ pin. cell_name cell pin.now) pins.now))) }
{
    let mut wire = first;
    for pin in pins {
        put_cell_wire(text, at, wire, cell, pin)?;
        wire += 1;
    }
    Ok(())
}

// Writes the wires of the logic cells of a tile.
fn put_all_cell_wires(text: &mut Vec<u8>, at: TileAt, first: u32) -> Result<(), NoMemory>
    requires { first ≤ 500000 }
    ensures { OnOk result
        (text.new.items ≡ text.old.items ++ text_of_lines (named_wires at first cell_names)) }
{
    for cell in 0..8 {
        put_cell_wires(text, at, first + 6 * cell, cell, &CELL_PINS)?;
    }
    Ok(())
}

// Writes the tracks of a tile.
fn put_track_wires(text: &mut Vec<u8>, at: TileAt, first: u32) -> Result<(), NoMemory>
    requires { first ≤ 501000 }
    ensures { OnOk result
        (text.new.items ≡ text.old.items ++ text_of_lines (named_wires at first track_names)) }
{
    for track in 0..64 {
        put_track_wire(text, at, first + track, track)?;
    }
    Ok(())
}

// Writes that a wire is the carry into the tile at a place, if that is a logic tile.
fn put_carry_in(text: &mut Vec<u8>, kind: Option<TileKind>, at: TileAt) -> Result<(), NoMemory>
    ensures { OnOk result
        (text.new.items ≡ text.old.items ++ text_of_lines (carry_in_line kind at)) }
{
    match kind {
        None => Ok(()),
        Some(TileKind::Io) => Ok(()),
        Some(TileKind::Logic) => put_name(text, at, b"carry_in"),
    }
}

// Writes the wires of an IO tile, from its first.
fn put_io_wires(text: &mut Vec<u8>, at: TileAt, first: u32) -> Result<(), NoMemory>
    requires { first ≤ 500000 }
    ensures { OnOk result (text.new.items ≡ text.old.items ++ text_of_lines
        (named_wires at first io_names ++ named_wires at (first + 7) track_names)) }
{
    put_named_wires(text, at, first, &IO_NAMES)?;
    put_track_wires(text, at, first + 7)
}

// Writes the wires of a logic tile, from its first.
fn put_logic_wires(text: &mut Vec<u8>, grid: &Grid, at: TileAt, first: u32) -> Result<(), NoMemory>
    requires row { at.y < 64 }
    requires first { first ≤ 500000 }
    ensures { OnOk result (text.new.items ≡ text.old.items
        ++ text_of_lines (own_wire_lines grid.now.width grid.now.height TileKind.Logic at first)) }
{
    let north = TileAt {
        x: at.x,
        y: at.y + 1,
    };
    put_all_cell_wires(text, at, first)?;
    put_carry_in(text, kind_at(grid.width, grid.height, north), north)?;
    put_named_wires(text, at, first + 48, &CONTROL_NAMES)?;
    put_track_wires(text, at, first + 52)
}

// Writes the wires of a tile.
fn put_tile_wires(text: &mut Vec<u8>, grid: &Grid, tile: Tile) -> Result<(), NoMemory>
    requires { IsWithin grid.now.width grid.now.height tile }
    ensures { OnOk result (text.new.items
        ≡ text.old.items ++ text_of_lines (tile_wire_lines grid.now.width grid.now.height tile)) }
{
    let first = grid.first_wire(tile.at);
    match tile.kind {
        TileKind::Io => put_io_wires(text, tile.at, first),
        TileKind::Logic => put_logic_wires(text, grid, tile.at, first),
    }
}

/// Writes the sections of the wires.
pub fn put_wires(text: &mut Vec<u8>, grid: &Grid) -> Result<(), NoMemory>
    ensures { OnOk result (text.new.items ≡ text.old.items
        ++ text_of_lines (all_wire_lines grid.now.width grid.now.height grid.now.tiles.items)) }
{
    put_global_wires(text, &grid.tiles)?;
    for tile in &grid.tiles {
        put_tile_wires(text, grid, *tile)?;
    }
    Ok(())
}

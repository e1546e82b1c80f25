//! The groups of pins, behind those of the tracks.
ghost use Rattle.std.specs.Prelude.{◌≡◌, ◌++◌, ◌+◌, ◌*◌, ◌<◌, ◌≤◌, ◌∷◌, [], OnOk};
ghost use Rattle.ice_base.specs.Lines.{text_of_lines};
ghost use Rattle.ice_sample.specs.Groups.{group_lines, groups_from, input_group, cell_groups, input_groups, control_group, control_groups, carry_in, carry_groups, io_pin_group, io_pin_groups};

use crate::grid::{Grid, Tile};
use crate::groups::put_group;
use crate::sources::{add_carry_for, add_carry_in, add_pin_tracks};
use ice_base::NoMemory;

// Writes the group of an input of a cell of a logic tile, whose bits begin with this one.
fn put_input(
    text: &mut Vec<u8>,
    sources: &mut Vec<u32>,
    tile: Tile,
    first: u32,
    bit: u16,
    cell: u32,
    input: u32,
) -> Result<(), NoMemory>
    requires first { first ≤ 500000 }
    requires bit { bit ≤ 900 }
    requires cell { cell < 8 }
    requires input { input < 4 }
    ensures { OnOk result (text.new.items ≡ text.old.items
        ++ text_of_lines (group_lines tile.kind tile.at bit (input_group first cell input))) }
{
    sources.clear();
    add_pin_tracks(sources, first + 52, 4 * cell + input)?;
    add_carry_for(sources, first, cell, input)?;
    put_group(text, tile, bit, 4, first + 6 * cell + input, sources)
}

// Writes the groups of the inputs of a cell of a logic tile, whose bits begin with this one.
fn put_cell(
    text: &mut Vec<u8>,
    sources: &mut Vec<u32>,
    tile: Tile,
    first: u32,
    bit: u16,
    cell: u32,
) -> Result<(), NoMemory>
    requires first { first ≤ 500000 }
    requires bit { bit ≤ 800 }
    requires cell { cell < 8 }
    ensures { OnOk result (text.new.items ≡ text.old.items
        ++ text_of_lines (groups_from tile.kind tile.at bit (cell_groups first cell))) }
{
    for input in 0..4 {
        put_input(
            text,
            sources,
            tile,
            first,
            bit + 4 * input as u16,
            cell,
            input,
        )?;
    }
    Ok(())
}

/// Writes the groups of the inputs of the cells of a logic tile, from its first wire, whose bits begin with this one.
pub fn put_inputs(
    text: &mut Vec<u8>,
    sources: &mut Vec<u32>,
    tile: Tile,
    first: u32,
    bit: u16,
) -> Result<(), NoMemory>
    requires first { first ≤ 500000 }
    requires bit { bit ≤ 600 }
    ensures { OnOk result (text.new.items ≡ text.old.items
        ++ text_of_lines (groups_from tile.kind tile.at bit (input_groups first))) }
{
    for cell in 0..8 {
        put_cell(text, sources, tile, first, bit + 16 * cell as u16, cell)?;
    }
    Ok(())
}

// Writes the group of a control of a logic tile: it takes these globals and then the tracks of its pin.
fn put_control(
    text: &mut Vec<u8>,
    sources: &mut Vec<u32>,
    tile: Tile,
    first: u32,
    bit: u16,
    control: u32,
    globals: &[u32],
) -> Result<(), NoMemory>
    requires first { first ≤ 500000 }
    requires bit { bit ≤ 900 }
    requires control { control < 3 }
    ensures { OnOk result (text.new.items ≡ text.old.items ++ text_of_lines
        (group_lines tile.kind tile.at bit (control_group first control globals.now))) }
{
    sources.clear();
    sources.extend_from_slice(globals)?;
    add_pin_tracks(sources, first + 52, 32 + control)?;
    put_group(text, tile, bit, 5, first + 48 + control, sources)
}

/// Writes the groups of the clock, the enable and the set or reset of a logic tile, from its first wire, whose bits
/// begin with this one.
pub fn put_controls(
    text: &mut Vec<u8>,
    sources: &mut Vec<u32>,
    tile: Tile,
    first: u32,
    bit: u16,
) -> Result<(), NoMemory>
    requires first { first ≤ 500000 }
    requires bit { bit ≤ 800 }
    ensures { OnOk result (text.new.items ≡ text.old.items
        ++ text_of_lines (groups_from tile.kind tile.at bit (control_groups first))) }
{
    put_control(
        text,
        sources,
        tile,
        first,
        bit,
        0,
        &[0, 1, 2, 3, 4, 5, 6, 7],
    )?;
    put_control(text, sources, tile, first, bit + 5, 1, &[1, 3, 5, 7])?;
    put_control(text, sources, tile, first, bit + 10, 2, &[0, 2, 4, 6])
}

/// Writes the group of the carry into a logic tile, from its first wire, if there is one. Its bit is this one.
pub fn put_carry(
    text: &mut Vec<u8>,
    sources: &mut Vec<u32>,
    grid: &Grid,
    tile: Tile,
    first: u32,
    bit: u16,
) -> Result<(), NoMemory>
    requires first { first ≤ 500000 }
    requires bit { bit ≤ 900 }
    ensures { OnOk result (text.new.items ≡ text.old.items ++ text_of_lines (groups_from tile.kind
        tile.at bit (carry_groups first (carry_in grid.now.width grid.now.height tile.at)))) }
{
    sources.clear();
    add_carry_in(sources, grid, tile.at)?;
    put_carry_of(text, tile, first, bit, sources)
}

// Writes the group that takes these carries into a logic tile, if there is one.
fn put_carry_of(
    text: &mut Vec<u8>,
    tile: Tile,
    first: u32,
    bit: u16,
    carries: &[u32],
) -> Result<(), NoMemory>
    requires first { first ≤ 500000 }
    requires bit { bit ≤ 900 }
    ensures { OnOk result (text.new.items ≡ text.old.items
        ++ text_of_lines (groups_from tile.kind tile.at bit (carry_groups first carries.now))) }
{
    if carries.is_empty() {
        return Ok(());
    }
    put_group(text, tile, bit, 1, first + 51, carries)
}

// Writes the group of a pin of an IO tile, whose bits begin with this one.
fn put_io_pin(
    text: &mut Vec<u8>,
    sources: &mut Vec<u32>,
    tile: Tile,
    first: u32,
    bit: u16,
    place: u32,
    pin: u32,
) -> Result<(), NoMemory>
    requires first { first ≤ 500000 }
    requires bit { bit ≤ 900 }
    requires place { place < 64 }
    requires pin { pin < 64 }
    ensures { OnOk result (text.new.items ≡ text.old.items
        ++ text_of_lines (group_lines tile.kind tile.at bit (io_pin_group first place pin))) }
{
    sources.clear();
    add_pin_tracks(sources, first + 7, pin)?;
    put_group(text, tile, bit, 4, first + place, sources)
}

/// Writes the groups of the pins of an IO tile, from its first wire, whose bits begin with this one.
pub fn put_io_pins(
    text: &mut Vec<u8>,
    sources: &mut Vec<u32>,
    tile: Tile,
    first: u32,
    bit: u16,
) -> Result<(), NoMemory>
    requires first { first ≤ 500000 }
    requires bit { bit ≤ 800 }
    ensures { OnOk result (text.new.items ≡ text.old.items
        ++ text_of_lines (groups_from tile.kind tile.at bit (io_pin_groups first))) }
{
    put_io_pin(text, sources, tile, first, bit, 1, 0)?;
    put_io_pin(text, sources, tile, first, bit + 4, 2, 1)?;
    put_io_pin(text, sources, tile, first, bit + 8, 4, 2)?;
    put_io_pin(text, sources, tile, first, bit + 12, 5, 3)?;
    put_io_pin(text, sources, tile, first, bit + 16, 6, 4)
}

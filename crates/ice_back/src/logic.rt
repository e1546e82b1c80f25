//! The ports and the cells of the netlist of a configured chip, added to it one after another.
ghost use Rattle.std.specs.Prelude.{◌≡◌, ◌+◌, ◌*◌, ◌≤◌, ◌<◌, ◌^◌, ◌∷◌, [], ◌++◌, length, map, IfOk, OnOk};
ghost use Rattle.std.specs.List.{flat_map, range_with_len};
ghost use Rattle.ice_bits.specs.Configuration.{bits_of};
ghost use Rattle.ice_decode.specs.Cells.{cells_in};
ghost use Rattle.ice_back_laws.specs.Back.{pad_cell, input_cells, output_cells, level_cells, side_cells, table_cells, carry_cells, flop_cells, logic_cells, fixed_cells, numbered_pads, pad_port};
ghost use Rattle.ice_back_laws.specs.Roots.{StandsAt};
ghost use Rattle.ice_back.specs.Adding.{with_cells, HasRoomForCells, StandAt};

use crate::cells::{carry_cell, fixed_cell, flop_cell, table_cell};
use crate::sides::{input_cell, level_cell, output_cell, pad_cell};
use ice_back_points::{ConfiguredChip, cell_table};
use ice_base::{NoMemory, SignalNo, TileAt};
use ice_chip::Pad;
use ice_decode::{has_carry, has_flop, has_output_register};
use ice_net::{Cell, Netlist, Way};
use std::alloc::Global;

/// Makes the signals of so many pads ports.
///
/// # Errors
/// Want of memory alone.
pub(crate) fn add_ports(netlist: &mut Netlist, count: u32) -> Result<(), NoMemory>
    requires none { netlist.old.ports ≡ [] }
    requires named { 2 + 5 * count ≤ length netlist.old.names }
    requires few { count < 2 ^ 28 }
    ensures { OnOk result
        (netlist.new ≡ record netlist.old { ports = map pad_port (range_with_len 0 count) }) }
{
    for number in 0..count {
        netlist.port(SignalNo(2 + 5 * number), Way::Both)?;
    }
    Ok(())
}

// Adds a cell.
fn add_cell(netlist: &mut Netlist, cell: Cell) -> Result<(), NoMemory>
    requires { HasRoomForCells netlist.old (cell ∷ []) }
    ensures { OnOk result (netlist.new ≡ with_cells netlist.old (cell ∷ [])) }
{
    netlist.cell(cell)
}

/// Adds the two fixed levels.
///
/// # Errors
/// Want of memory alone.
pub(crate) fn add_fixed(alloc: Global, netlist: &mut Netlist) -> Result<(), NoMemory>
    requires { HasRoomForCells netlist.old fixed_cells }
    ensures { OnOk result (netlist.new ≡ with_cells netlist.old fixed_cells) }
{
    let low = fixed_cell(alloc, false)?;
    add_cell(netlist, low)?;
    let high = fixed_cell(alloc, true)?;
    add_cell(netlist, high)
}

// Adds the SB_IO of the pad of a number.
fn add_pad(
    alloc: Global,
    configured: &ConfiguredChip<'_>,
    netlist: &mut Netlist,
    number: u32,
    pad: Pad,
) -> Result<(), NoMemory>
    requires room { HasRoomForCells netlist.old
        (pad_cell configured.now.parts (bits_of configured.now.configuration)
        configured.now.configuration.extras configured.now.bonded.pads (number, pad)
        ∷ []) }
    requires few { number < 2 ^ 28 }
    ensures { OnOk result (netlist.new ≡ with_cells netlist.old
        (pad_cell configured.now.parts (bits_of configured.now.configuration)
        configured.now.configuration.extras configured.now.bonded.pads (number, pad)
        ∷ [])) }
{
    let cell = pad_cell(alloc, configured, number, pad)?;
    add_cell(netlist, cell)
}

/// Adds the SB_IO of each of these pads, which are those of the package.
///
/// # Errors
/// Want of memory alone.
pub(crate) fn add_pads(
    alloc: Global,
    configured: &ConfiguredChip<'_>,
    netlist: &mut Netlist,
    pads: &[Pad],
) -> Result<(), NoMemory>
    requires room { HasRoomForCells netlist.old (map
        (pad_cell configured.now.parts (bits_of configured.now.configuration)
        configured.now.configuration.extras configured.now.bonded.pads)
        (numbered_pads pads.now)) }
    requires few { length pads.now < 2 ^ 28 }
    ensures { OnOk result (netlist.new ≡ with_cells netlist.old (map
        (pad_cell configured.now.parts (bits_of configured.now.configuration)
        configured.now.configuration.extras configured.now.bonded.pads)
        (numbered_pads pads.now))) }
{
    for (number, pad) in pads.iter().enumerate() {
        add_pad(alloc, configured, netlist, number as u32, *pad)?;
    }
    Ok(())
}

// Adds the register that takes what a pad gives, if the netlist has it.
fn add_input(
    alloc: Global,
    configured: &ConfiguredChip<'_>,
    netlist: &mut Netlist,
    number: u32,
    pad: Pad,
) -> Result<(), NoMemory>
    requires room { HasRoomForCells netlist.old
        (input_cells configured.now.parts (bits_of configured.now.configuration)
        configured.now.configuration.extras configured.now.bonded.pads (number, pad)) }
    requires few { number < 2 ^ 28 }
    ensures { OnOk result (netlist.new ≡ with_cells netlist.old
        (input_cells configured.now.parts (bits_of configured.now.configuration)
        configured.now.configuration.extras configured.now.bonded.pads (number, pad))) }
{
    if !configured.is_registered(pad) {
        return Ok(());
    }
    let made = input_cell(alloc, configured, number, pad)?;
    add_cell(netlist, made)
}

// Adds the register that a pad is driven with, where it has one.
fn add_output(
    alloc: Global,
    configured: &ConfiguredChip<'_>,
    netlist: &mut Netlist,
    number: u32,
    pad: Pad,
) -> Result<(), NoMemory>
    requires room { HasRoomForCells netlist.old
        (output_cells configured.now.parts (bits_of configured.now.configuration)
        configured.now.configuration.extras configured.now.bonded.pads (number, pad)) }
    requires few { number < 2 ^ 28 }
    ensures { OnOk result (netlist.new ≡ with_cells netlist.old
        (output_cells configured.now.parts (bits_of configured.now.configuration)
        configured.now.configuration.extras configured.now.bonded.pads (number, pad))) }
{
    if !has_output_register(configured.chip(), configured.bits(), pad) {
        return Ok(());
    }
    let made = output_cell(alloc, configured, number, pad)?;
    add_cell(netlist, made)
}

// Adds the SB_GB of a pad whose level is on some global.
fn add_level(
    alloc: Global,
    configured: &ConfiguredChip<'_>,
    netlist: &mut Netlist,
    number: u32,
    pad: Pad,
) -> Result<(), NoMemory>
    requires room { HasRoomForCells netlist.old (level_cells configured.now.parts
        (bits_of configured.now.configuration) configured.now.configuration.extras (number, pad)) }
    requires few { number < 2 ^ 28 }
    ensures { OnOk result (netlist.new ≡ with_cells netlist.old (level_cells configured.now.parts
        (bits_of configured.now.configuration) configured.now.configuration.extras (number, pad))) }
{
    if !configured.feeds_global(pad) {
        return Ok(());
    }
    let made = level_cell(alloc, number)?;
    add_cell(netlist, made)
}

// Adds the cells of a pad beside its SB_IO.
fn add_side(
    alloc: Global,
    configured: &ConfiguredChip<'_>,
    netlist: &mut Netlist,
    number: u32,
    pad: Pad,
) -> Result<(), NoMemory>
    requires room { HasRoomForCells netlist.old
        (side_cells configured.now.parts (bits_of configured.now.configuration)
        configured.now.configuration.extras configured.now.bonded.pads (number, pad)) }
    requires few { number < 2 ^ 28 }
    ensures { OnOk result (netlist.new ≡ with_cells netlist.old
        (side_cells configured.now.parts (bits_of configured.now.configuration)
        configured.now.configuration.extras configured.now.bonded.pads (number, pad))) }
{
    add_input(alloc, configured, netlist, number, pad)?;
    add_output(alloc, configured, netlist, number, pad)?;
    add_level(alloc, configured, netlist, number, pad)
}

/// Adds the cells beside the SB_IO of each of these pads, which are those of the package.
///
/// # Errors
/// Want of memory alone.
pub(crate) fn add_sides(
    alloc: Global,
    configured: &ConfiguredChip<'_>,
    netlist: &mut Netlist,
    pads: &[Pad],
) -> Result<(), NoMemory>
    requires room { HasRoomForCells netlist.old (flat_map
        (side_cells configured.now.parts (bits_of configured.now.configuration)
        configured.now.configuration.extras configured.now.bonded.pads)
        (numbered_pads pads.now)) }
    requires few { length pads.now < 2 ^ 28 }
    ensures { OnOk result (netlist.new ≡ with_cells netlist.old (flat_map
        (side_cells configured.now.parts (bits_of configured.now.configuration)
        configured.now.configuration.extras configured.now.bonded.pads)
        (numbered_pads pads.now))) }
{
    for (number, pad) in pads.iter().enumerate() {
        add_side(alloc, configured, netlist, number as u32, *pad)?;
    }
    Ok(())
}

// Adds the look-up table of a cell, where its table has a bit.
fn add_table(
    alloc: Global,
    configured: &ConfiguredChip<'_>,
    netlist: &mut Netlist,
    cell: (TileAt, u8),
) -> Result<(), NoMemory>
    requires stands { StandsAt configured.now.parts cell.0 cell.1 }
    requires room { HasRoomForCells netlist.old
        (table_cells configured.now.parts (bits_of configured.now.configuration)
        configured.now.configuration.extras configured.now.bonded.pads cell) }
    ensures { OnOk result (netlist.new ≡ with_cells netlist.old
        (table_cells configured.now.parts (bits_of configured.now.configuration)
        configured.now.configuration.extras configured.now.bonded.pads cell)) }
{
    let table = cell_table(configured.chip(), configured.bits(), cell.0, cell.1);
    if table == 0 {
        return Ok(());
    }
    let made = table_cell(alloc, configured, table, cell.0, cell.1)?;
    add_cell(netlist, made)
}

// Adds the carry of a cell, where it is enabled.
fn add_carry(
    alloc: Global,
    configured: &ConfiguredChip<'_>,
    netlist: &mut Netlist,
    cell: (TileAt, u8),
) -> Result<(), NoMemory>
    requires stands { StandsAt configured.now.parts cell.0 cell.1 }
    requires room { HasRoomForCells netlist.old
        (carry_cells configured.now.parts (bits_of configured.now.configuration)
        configured.now.configuration.extras configured.now.bonded.pads cell) }
    ensures { OnOk result (netlist.new ≡ with_cells netlist.old
        (carry_cells configured.now.parts (bits_of configured.now.configuration)
        configured.now.configuration.extras configured.now.bonded.pads cell)) }
{
    if !has_carry(configured.chip(), configured.bits(), cell.0, cell.1) {
        return Ok(());
    }
    let made = carry_cell(alloc, configured, cell.0, cell.1)?;
    add_cell(netlist, made)
}

// Adds the flip-flop of a cell, where the cell's output is its.
fn add_flop(
    alloc: Global,
    configured: &ConfiguredChip<'_>,
    netlist: &mut Netlist,
    cell: (TileAt, u8),
) -> Result<(), NoMemory>
    requires stands { StandsAt configured.now.parts cell.0 cell.1 }
    requires room { HasRoomForCells netlist.old
        (flop_cells configured.now.parts (bits_of configured.now.configuration)
        configured.now.configuration.extras configured.now.bonded.pads cell) }
    ensures { OnOk result (netlist.new ≡ with_cells netlist.old
        (flop_cells configured.now.parts (bits_of configured.now.configuration)
        configured.now.configuration.extras configured.now.bonded.pads cell)) }
{
    if !has_flop(configured.chip(), configured.bits(), cell.0, cell.1) {
        return Ok(());
    }
    let made = flop_cell(alloc, configured, cell.0, cell.1)?;
    add_cell(netlist, made)
}

// Adds what the bits make of a logic cell.
fn add_logic(
    alloc: Global,
    configured: &ConfiguredChip<'_>,
    netlist: &mut Netlist,
    cell: (TileAt, u8),
) -> Result<(), NoMemory>
    requires stands { StandsAt configured.now.parts cell.0 cell.1 }
    requires room { HasRoomForCells netlist.old
        (logic_cells configured.now.parts (bits_of configured.now.configuration)
        configured.now.configuration.extras configured.now.bonded.pads cell) }
    ensures { OnOk result (netlist.new ≡ with_cells netlist.old
        (logic_cells configured.now.parts (bits_of configured.now.configuration)
        configured.now.configuration.extras configured.now.bonded.pads cell)) }
{
    add_table(alloc, configured, netlist, cell)?;
    add_carry(alloc, configured, netlist, cell)?;
    add_flop(alloc, configured, netlist, cell)
}

/// Adds what the bits make of these logic cells of the chip.
///
/// # Errors
/// Want of memory alone.
pub(crate) fn add_all_logic(
    alloc: Global,
    configured: &ConfiguredChip<'_>,
    netlist: &mut Netlist,
    cells: &[(TileAt, u8)],
) -> Result<(), NoMemory>
    requires stand { StandAt configured.now.parts cells.now }
    requires room { HasRoomForCells netlist.old (flat_map
        (logic_cells configured.now.parts (bits_of configured.now.configuration)
        configured.now.configuration.extras configured.now.bonded.pads)
        cells.now) }
    ensures { OnOk result (netlist.new ≡ with_cells netlist.old (flat_map
        (logic_cells configured.now.parts (bits_of configured.now.configuration)
        configured.now.configuration.extras configured.now.bonded.pads)
        cells.now)) }
{
    for cell in cells {
        add_logic(alloc, configured, netlist, *cell)?;
    }
    Ok(())
}

// Adds the cells of a tile.
fn add_cells_of(cells: &mut Vec<(TileAt, u8)>, tile: TileAt) -> Result<(), NoMemory>
    ensures { OnOk result (cells.new.items ≡ cells.old.items ++ cells_in tile) }
{
    cells.extend_from_slice(&[
        (tile, 0),
        (tile, 1),
        (tile, 2),
        (tile, 3),
        (tile, 4),
        (tile, 5),
        (tile, 6),
        (tile, 7),
    ])?;
    Ok(())
}

/// The cells of these tiles, tile by tile.
///
/// # Errors
/// Want of memory alone.
pub(crate) fn cells_of(alloc: Global, tiles: &[TileAt]) -> Result<Vec<(TileAt, u8)>, NoMemory>
    ensures { IfOk result (λ cells. cells.items ≡ flat_map cells_in tiles.now) }
{
    let mut cells = Vec::new(alloc);
    for tile in tiles {
        add_cells_of(&mut cells, *tile)?;
    }
    Ok(cells)
}

//! All ends of a configured chip.
ghost use Rattle.std.specs.Prelude.{◌≡◌, ◌<◌, ◌++◌, ◌∷◌, [], OnOk, IfOk};
ghost use Rattle.std.specs.List.{flat_map};
ghost use Rattle.ice_bits.specs.Configuration.{bits_of};
ghost use Rattle.ice_chip.specs.Names.{input_name};
ghost use Rattle.ice_decode.specs.Pads.{pads_in, pads};
ghost use Rattle.ice_decode.specs.Reads.{at_pin, cell_inputs};
ghost use Rattle.ice_timing.specs.Entries.{entries_by, controls, flop_entries, tile_entries, pad_door, pad_lasts, pad_entries, io_entries, is_ram_clock, ram_last, ram_entries, entries};

use crate::{Door, End, Entry};
use ice_base::{NoMemory, TileAt};
use ice_bits::Bits;
use ice_chip::{
    Chip, Pad, RAM_WIRES, Tile, TileKind, clock_enable_name, input_name, is_read_out,
    output_enable_name, pad_output_name, ram_name, set_reset_name,
};
use ice_chip_rams::{RamSite, ram_tile};
use ice_decode::{Point, at_pin, has_flop, logic_tiles, pin_type, rams};
use std::alloc::Global;

// Adds an entry by a point, where there is one.
fn add_entry(
    entries: &mut Vec<Entry>,
    end: End,
    door: Door,
    last: Option<Point>,
) -> Result<(), NoMemory>
    ensures { OnOk result
        (entries.new.items ≡ entries.old.items ++ entries_by end door (last ∷ [])) }
{
    if let Some(last) = last {
        entries.push(Entry { end, door, last })?;
    }
    Ok(())
}

// Adds an entry for each of these points that is there.
fn add_entries(
    entries: &mut Vec<Entry>,
    end: End,
    door: Door,
    lasts: &[Option<Point>],
) -> Result<(), NoMemory>
    ensures { OnOk result (entries.new.items ≡ entries.old.items ++ entries_by end door lasts.now) }
{
    for last in lasts {
        add_entry(entries, end, door, *last)?;
    }
    Ok(())
}

// An input of a cell.
fn input(chip: &Chip, tile: TileAt, cell: u8, number: u8) -> Option<Point>
    ensures { result ≡ at_pin chip.now tile (input_name cell number) }
{
    at_pin(chip, tile, &input_name(cell, number))
}

// The four inputs of a cell.
fn inputs(chip: &Chip, tile: TileAt, cell: u8) -> [Option<Point>; 4]
    ensures { result ≡ cell_inputs chip.now tile cell }
{
    [
        input(chip, tile, cell, 0),
        input(chip, tile, cell, 1),
        input(chip, tile, cell, 2),
        input(chip, tile, cell, 3),
    ]
}

// The clock enable of a tile, and its set and reset.
fn controls(chip: &Chip, tile: TileAt) -> [Option<Point>; 2]
    ensures { result ≡ controls chip.now tile }
{
    [
        at_pin(chip, tile, &clock_enable_name()),
        at_pin(chip, tile, &set_reset_name()),
    ]
}

// Adds the entries into the flip-flop of a cell, where it has one.
fn add_flop(
    entries: &mut Vec<Entry>,
    chip: &Chip,
    bits: &Bits,
    tile: TileAt,
    cell: u8,
) -> Result<(), NoMemory>
    ensures { OnOk result (entries.new.items
        ≡ entries.old.items ++ flop_entries chip.now (bits_of bits.now) tile cell) }
{
    if !has_flop(chip, bits, tile, cell) {
        return Ok(());
    }
    let end = End::Flop { tile, cell };
    add_entries(entries, end, Door::Table, &inputs(chip, tile, cell))?;
    add_entries(entries, end, Door::Control, &controls(chip, tile))?;
    Ok(())
}

// Adds the entries into the flip-flops of these cells of a tile.
fn add_flops(
    entries: &mut Vec<Entry>,
    chip: &Chip,
    bits: &Bits,
    tile: TileAt,
    cells: &[u8],
) -> Result<(), NoMemory>
    ensures { OnOk result (entries.new.items
        ≡ entries.old.items ++ flat_map (flop_entries chip.now (bits_of bits.now) tile) cells.now) }
{
    for cell in cells {
        add_flop(entries, chip, bits, tile, *cell)?;
    }
    Ok(())
}

// Adds the entries into the flip-flops of these tiles.
fn add_tiles(
    entries: &mut Vec<Entry>,
    chip: &Chip,
    bits: &Bits,
    tiles: &[TileAt],
) -> Result<(), NoMemory>
    ensures { OnOk result (entries.new.items
        ≡ entries.old.items ++ flat_map (tile_entries chip.now (bits_of bits.now)) tiles.now) }
{
    for tile in tiles {
        add_flops(entries, chip, bits, *tile, &[0, 1, 2, 3, 4, 5, 6, 7])?;
    }
    Ok(())
}

// Adds the entries of a pad by its output, and by its enable where it has one.
fn add_outputs(entries: &mut Vec<Entry>, chip: &Chip, pad: Pad, part: u8) -> Result<(), NoMemory>
    ensures { OnOk result (entries.new.items ≡ entries.old.items
        ++ entries_by (End.Pad pad) (pad_door part) (pad_lasts chip.now pad part)) }
{
    let output = at_pin(chip, pad.tile, &pad_output_name(pad.pio));
    let enable = at_pin(chip, pad.tile, &output_enable_name(pad.pio));
    match part {
        0b0101 => add_entries(entries, End::Pad(pad), Door::Register, &[output]),
        0b0110 => add_entries(entries, End::Pad(pad), Door::Outside, &[output]),
        0b1010 => add_entries(entries, End::Pad(pad), Door::Outside, &[output, enable]),
        _ => Ok(()),
    }
}

// Adds the entries of a pad.
fn add_pad(entries: &mut Vec<Entry>, chip: &Chip, bits: &Bits, pad: Pad) -> Result<(), NoMemory>
    ensures { OnOk result
        (entries.new.items ≡ entries.old.items ++ pad_entries chip.now (bits_of bits.now) pad) }
{
    add_outputs(entries, chip, pad, pin_type(chip, bits, pad) / 4)
}

// Adds the entries of the two pads of an IO tile.
fn add_pads_in(
    entries: &mut Vec<Entry>,
    chip: &Chip,
    bits: &Bits,
    tile: TileAt,
) -> Result<(), NoMemory>
    ensures { OnOk result (entries.new.items
        ≡ entries.old.items ++ flat_map (pad_entries chip.now (bits_of bits.now)) (pads_in tile)) }
{
    add_pad(entries, chip, bits, Pad { tile, pio: 0 })?;
    add_pad(entries, chip, bits, Pad { tile, pio: 1 })?;
    Ok(())
}

// Adds the entries of the pads of a tile.
fn add_tile_pads(
    entries: &mut Vec<Entry>,
    chip: &Chip,
    bits: &Bits,
    tile: &Tile,
) -> Result<(), NoMemory>
    ensures { OnOk result
        (entries.new.items ≡ entries.old.items ++ io_entries chip.now (bits_of bits.now) tile.now) }
{
    match tile.kind {
        TileKind::Io => add_pads_in(entries, chip, bits, tile.at),
        TileKind::Logic | TileKind::RamBottom | TileKind::RamTop => Ok(()),
    }
}

// Adds the entries of all pads.
fn add_pads(entries: &mut Vec<Entry>, chip: &Chip, bits: &Bits) -> Result<(), NoMemory>
    ensures { OnOk result (entries.new.items
        ≡ entries.old.items ++ flat_map (pad_entries chip.now (bits_of bits.now)) (pads chip.now)) }
{
    for tile in chip.tiles() {
        add_tile_pads(entries, chip, bits, tile)?;
    }
    Ok(())
}

// Whether the wire of this number of a block RAM is the clock of a port: `ram/RCLK` or `ram/WCLK`.
fn is_ram_clock(wire: u8) -> bool
    ensures { result ≡ is_ram_clock wire }
{
    wire == 70 || wire == 71
}

// The wire of this number of a block RAM, unless the RAM drives it or it is a clock.
fn ram_last(chip: &Chip, site: RamSite, wire: u8) -> Option<Point>
    requires { wire < 76 }
    ensures { result ≡ ram_last chip.now site wire }
{
    if is_read_out(wire) || is_ram_clock(wire) {
        return None;
    }
    at_pin(chip, ram_tile(site, wire), ram_name(wire))
}

// Adds the entries of a block RAM.
fn add_ram(entries: &mut Vec<Entry>, chip: &Chip, site: RamSite) -> Result<(), NoMemory>
    ensures { OnOk result
        (entries.new.items ≡ entries.old.items ++ ram_entries chip.now site) }
{
    let end = End::Ram { lower: site.lower };
    for wire in 0..RAM_WIRES {
        add_entry(entries, end, Door::Port, ram_last(chip, site, wire))?;
    }
    Ok(())
}

// Adds the entries of these block RAMs.
fn add_rams(entries: &mut Vec<Entry>, chip: &Chip, sites: &[RamSite]) -> Result<(), NoMemory>
    ensures { OnOk result (entries.new.items
        ≡ entries.old.items ++ flat_map (ram_entries chip.now) sites.now) }
{
    for site in sites {
        add_ram(entries, chip, *site)?;
    }
    Ok(())
}

/// All ends with the points by which a path leads into them.
///
/// # Errors
/// Want of memory alone.
pub(crate) fn entries(alloc: Global, chip: &Chip, bits: &Bits) -> Result<Vec<Entry>, NoMemory>
    ensures { IfOk result (λ all. all.items ≡ entries chip.now (bits_of bits.now)) }
{
    let tiles = logic_tiles(alloc, chip)?;
    let sites = rams(alloc, chip, bits)?;
    let mut entries = Vec::new(alloc);
    add_tiles(&mut entries, chip, bits, &tiles)?;
    add_pads(&mut entries, chip, bits)?;
    add_rams(&mut entries, chip, &sites)?;
    Ok(entries)
}

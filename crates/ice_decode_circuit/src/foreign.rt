//! What no circuit holds: outputs of memories that are no block RAMs in use, functions of PLLs, of pairs of pads and of cascades of block
//! RAMs, and falling clocks of registers of pads.
ghost use Rattle.std.specs.Prelude.{◌≡◌, ◌<◌, [], All, map, option_map, IfOk, OnOk};
ghost use Rattle.std.specs.List.{list_any};
ghost use Rattle.ice_chip.specs.Views.{function_view};
ghost use Rattle.ice_bits.specs.Configuration.{bits_of};
ghost use Rattle.ice_decode.specs.Drivers.{switches_on};
ghost use Rattle.ice_decode.specs.Faults.{is_memory_output, counts_in};
ghost use Rattle.ice_decode.specs.ForeignSources.{is_foreign_wire, is_foreign_name};
ghost use Rattle.ice_decode.specs.FirstFaults.{foreign_function};
ghost use Rattle.ice_decode.specs.Tables.{IsBetween, AreSources, foreign_wires, foreign_source_of};
ghost use Rattle.ice_decode_circuit.specs.ForeignTiles.{is_set_at, foreign_at};
ghost use Rattle.ice_decode_circuit.specs.ForeignPlaces.{with_places, foreign_places};

use crate::pin_types::uses_registers;
use ice_base::{BitAt, NoMemory, TileAt, WireNo};
use ice_bits::Bits;
use ice_chip::{
    Chip, Function, PlacedName, Tile, TileKind, falling_clock_function, is_foreign, same_kind,
};
use ice_decode::{Switch, is_given};
use indexmap::IndexSet;
use std::alloc::Global;

/// Whether this is a name of what a memory reads out.
pub(crate) fn is_memory_output(name: &[u8]) -> bool
    ensures { result ≡ is_memory_output name.now }
{
    name.starts_with(b"ram/RDATA_".as_slice())
}

// Whether this is a name of an output of a memory that is no block RAM in use.
fn is_foreign_name(chip: &Chip, bits: &Bits, placed: &PlacedName) -> bool
    ensures { result ≡ is_foreign_name chip.now (bits_of bits.now) placed.now }
{
    is_memory_output(placed.name.as_bytes()) && !is_given(chip, bits, placed)
}

// Whether a wire is an output of a memory that is no block RAM in use.
fn is_foreign_wire(chip: &Chip, bits: &Bits, wire: WireNo) -> bool
    requires { wire.0 < chip.now.wires }
    ensures { result ≡ is_foreign_wire chip.now (bits_of bits.now) wire.0 }
{
    for placed in chip.names(wire) {
        if is_foreign_name(chip, bits, placed) {
            return true;
        }
    }
    false
}

// Whether each wire is such an output: the names of a wire are gone through once, however many rows read it.
fn foreign_wires(alloc: Global, chip: &Chip, bits: &Bits) -> Result<Vec<bool>, NoMemory>
    ensures { IfOk result (λ foreign. foreign.items ≡ foreign_wires chip.now (bits_of bits.now)) }
{
    let mut foreign = Vec::with_capacity(alloc, chip.wires() as usize)?;
    for wire in 0..chip.wires() {
        foreign.push(is_foreign_wire(chip, bits, WireNo(wire)))?;
    }
    Ok(foreign)
}

// Whether a wire is such an output, by the table of all wires.
fn is_marked(chip: &Chip, bits: &Bits, foreign: &[bool], wire: WireNo) -> bool
    requires foreign { foreign.now ≡ foreign_wires chip.now (bits_of bits.now) }
    requires wire { wire.0 < chip.now.wires }
    ensures { result ≡ is_foreign_wire chip.now (bits_of bits.now) wire.0 }
{
    let (_chip, _bits) = (chip, bits);
    foreign[wire.0 as usize]
}

// The source of the first of these rows whose source is such an output, by the table of all wires.
#[tactic(auto, using(ice_decode::proofs::DriverTables::source_below))]
fn first_foreign(chip: &Chip, bits: &Bits, foreign: &[bool], switches: &[Switch]) -> Option<WireNo>
    requires foreign { foreign.now ≡ foreign_wires chip.now (bits_of bits.now) }
    requires switches { All (IsBetween chip.now.wires) switches.now }
    ensures { option_map (λ wire. wire.0) result
        ≡ foreign_source_of chip.now (bits_of bits.now) switches.now }
{
    for switch in switches {
        if is_marked(chip, bits, foreign, switch.source) {
            return Some(switch.source);
        }
    }
    None
}

/// The source of the first of these rows whose source is an output of a memory that is no block RAM in use.
///
/// # Errors
/// Want of memory alone.
pub(crate) fn foreign_source(
    alloc: Global,
    chip: &Chip,
    bits: &Bits,
    switches: &[Switch],
) -> Result<Option<WireNo>, NoMemory>
    requires { All (IsBetween chip.now.wires) switches.now }
    ensures { IfOk result (λ source. option_map (λ wire. wire.0) source
        ≡ foreign_source_of chip.now (bits_of bits.now) switches.now) }
{
    let foreign = foreign_wires(alloc, chip, bits)?;
    Ok(first_foreign(chip, bits, &foreign, switches))
}

// Whether one of these bits of a tile is 1.
fn has_one(bits: &Bits, tile: TileAt, places: &[BitAt]) -> bool
    ensures { result ≡ list_any (bits_of bits.now tile) places.now }
{
    for place in places {
        if bits.get(tile, *place) {
            return true;
        }
    }
    false
}

// Whether a foreign function of this name counts in a tile.
fn counts_in(chip: &Chip, bits: &Bits, sources: &[bool], tile: TileAt, name: &[u8]) -> bool
    requires { AreSources (switches_on (bits_of bits.now) chip.now.groups) sources.now }
    ensures { result ≡ counts_in chip.now (bits_of bits.now) tile name.now }
{
    name != falling_clock_function().as_slice() || uses_registers(chip, bits, sources, tile)
}

// Whether a bit of a foreign function of the tile's kind is set in the tile, where the function counts.
fn is_set_at(chip: &Chip, bits: &Bits, sources: &[bool], tile: Tile, function: &Function) -> bool
    requires { AreSources (switches_on (bits_of bits.now) chip.now.groups) sources.now }
    ensures { result ≡ is_set_at chip.now (bits_of bits.now) tile (function_view function.now) }
{
    same_kind(function.kind, tile.kind)
        && is_foreign(function.kind, function.name.as_bytes())
        && has_one(bits, tile.at, &function.bits)
        && counts_in(chip, bits, sources, tile.at, function.name.as_bytes())
}

// The line of the first foreign function with a bit that is set in the tile.
fn foreign_at(
    chip: &Chip,
    bits: &Bits,
    sources: &[bool],
    functions: &[Function],
    tile: Tile,
) -> Option<u32>
    requires { AreSources (switches_on (bits_of bits.now) chip.now.groups) sources.now }
    ensures { result
        ≡ foreign_at chip.now (map function_view functions.now) (bits_of bits.now) tile }
{
    for function in functions {
        if is_set_at(chip, bits, sources, tile, function) {
            return Some(function.line);
        }
    }
    None
}

// Adds the places that are new.
fn add_places(places: &mut IndexSet<BitAt>, bits: &[BitAt]) -> Result<(), NoMemory>
    ensures { OnOk result (places.new.keys ≡ with_places places.old.keys bits.now) }
{
    for bit in bits {
        places.insert(*bit)?;
    }
    Ok(())
}

// The different places of the bits of the foreign ones of these functions.
fn foreign_places(alloc: Global, functions: &[Function]) -> Result<IndexSet<BitAt>, NoMemory>
    ensures { IfOk result (λ places.
        places.keys ≡ foreign_places [] (map function_view functions.now)) }
{
    let mut places = IndexSet::new(alloc);
    for function in functions {
        if is_foreign(function.kind, function.name.as_bytes()) {
            add_places(&mut places, &function.bits)?;
        }
    }
    Ok(places)
}

// The line of the first foreign function with a bit that is set in the tile, by the different places of such bits: functions are gone
// through in a tile alone in which one of the places is set.
#[tactic(auto, using(crate::proofs::ForeignBits::none_marked, crate::proofs::ForeignBits::none_elsewhere))]
fn foreign_in(
    chip: &Chip,
    bits: &Bits,
    sources: &[bool],
    functions: &[Function],
    places: &[BitAt],
    tile: Tile,
) -> Option<u32>
    requires sources { AreSources (switches_on (bits_of bits.now) chip.now.groups) sources.now }
    requires places { places.now ≡ foreign_places [] (map function_view functions.now) }
    ensures { result
        ≡ foreign_at chip.now (map function_view functions.now) (bits_of bits.now) tile }
{
    if same_kind(TileKind::Logic, tile.kind) {
        return None;
    }
    if !has_one(bits, tile.at, places) {
        return None;
    }
    foreign_at(chip, bits, sources, functions, tile)
}

/// The first tile in which a bit of a foreign function is set, and the line of the first function with one there. The table has whether
/// a row that is on reads each wire.
///
/// # Errors
/// Want of memory alone.
#[tactic(auto, using(crate::proofs::TileLists::foreign_same))]
pub(crate) fn foreign_function(
    alloc: Global,
    chip: &Chip,
    bits: &Bits,
    sources: &[bool],
) -> Result<Option<(TileAt, u32)>, NoMemory>
    requires { AreSources (switches_on (bits_of bits.now) chip.now.groups) sources.now }
    ensures { IfOk result (λ found. found ≡ foreign_function chip.now (bits_of bits.now)) }
{
    let functions = chip.functions();
    let places = foreign_places(alloc, functions)?;
    for tile in chip.tiles() {
        if let Some(line) = foreign_in(chip, bits, sources, functions, places.as_slice(), *tile) {
            return Ok(Some((tile.at, line)));
        }
    }
    Ok(None)
}

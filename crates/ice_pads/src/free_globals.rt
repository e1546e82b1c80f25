//! The globals of a chip that can be taken.
ghost use Rattle.std.specs.Prelude.{◌≡◌, ◌<◌, ◌≤◌, filter, length, option_map, IfOk};
ghost use Rattle.ice_chip.specs.Lookups.{wire_named};
ghost use Rattle.ice_chip.specs.WireNames.{clock_enable_name, set_reset_name};
ghost use Rattle.ice_pads.specs.Constraints.{first_passing};
ghost use Rattle.ice_pads.specs.Globals.{has_name, global_wire, is_same_tile, is_fed, some_lower, is_global, globals, is_joined_to, is_logic_kind, reaches, serves};

use crate::Pins;
use ice_base::{NoMemory, TileAt, WireNo};
use ice_bits_rows::{Index, is_joined};
use ice_chip::{Chip, TileKind, clock_enable_name, fabout_name, global_name, set_reset_name};
use ice_chip_sockets::has_io_wire;
use std::alloc::Global;

// Whether one of the wire's names is this one.
fn has_name(chip: &Chip, name: &[u8], wire: WireNo) -> bool
    requires { wire.0 < chip.now.wires }
    ensures { result ≡ has_name chip.now name.now wire.0 }
{
    for placed in chip.names(wire) {
        if placed.name.as_bytes() == name {
            return true;
        }
    }
    false
}

// The least wire that has the name.
fn first_named(chip: &Chip, name: &[u8]) -> Option<WireNo>
    ensures { option_map (λ w. w.0) result
        ≡ first_passing (has_name chip.now name.now) 0 chip.now.wires }
{
    for wire in 0..chip.wires() {
        if has_name(chip, name, WireNo(wire)) {
            return Some(WireNo(wire));
        }
    }
    None
}

/// The wire of a global, from 0 to 7: the least wire that has its name in some tile. It takes no memory.
pub fn global_wire(chip: &Chip, number: u8) -> Option<WireNo>
    ensures { option_map (λ w. w.0) result ≡ global_wire chip.now number }
{
    first_named(chip, &global_name(number))
}

// Whether both tiles are there, and they are the same.
fn is_same_tile(tile: Option<TileAt>, other: Option<TileAt>) -> bool
    ensures { result ≡ is_same_tile tile other }
{
    match (tile, other) {
        (Some(tile), Some(other)) => tile == other,
        _ => false,
    }
}

// Whether the tile that feeds a global has what feeds it.
fn is_fed(chip: &Chip, tile: Option<TileAt>) -> bool
    ensures { result ≡ is_fed chip.now tile }
{
    match tile {
        Some(tile) => has_io_wire(chip, tile, &fabout_name()),
        None => false,
    }
}

// Whether the tile feeds a lower global.
fn some_lower(chip: &Chip, number: u8, tile: Option<TileAt>) -> bool
    ensures { result ≡ some_lower chip.now number tile }
{
    for lower in 0..number {
        if is_same_tile(chip.global_of(lower), tile) {
            return true;
        }
    }
    false
}

// Whether the global can be taken.
fn is_global(chip: &Chip, number: u8) -> bool
    ensures { result ≡ is_global chip.now number }
{
    let tile = chip.global_of(number);
    global_wire(chip, number).is_some() && is_fed(chip, tile) && !some_lower(chip, number, tile)
}

// The ones of these globals that can be taken.
fn takeable(alloc: Global, chip: &Chip, numbers: &[u8]) -> Result<Vec<u8>, NoMemory>
    ensures { IfOk result (λ found. found.items ≡ filter (is_global chip.now) numbers.now) }
{
    let mut found = Vec::new(alloc);
    for number in numbers {
        if is_global(chip, *number) {
            found.push(*number)?;
        }
    }
    Ok(found)
}

// The globals that can be taken, by rising number.
pub fn all_globals(alloc: Global, chip: &Chip) -> Result<Vec<u8>, NoMemory>
    ensures { IfOk result (λ found. found.items ≡ globals chip.now) }
{
    takeable(alloc, chip, &[0, 1, 2, 3, 4, 5, 6, 7])
}

// How many of these globals can be taken.
fn count_takeable(chip: &Chip, numbers: &[u8]) -> u32
    requires { length numbers.now ≤ 8 }
    ensures { result ≡ length (filter (is_global chip.now) numbers.now) }
{
    let mut count = 0;
    for number in numbers {
        if is_global(chip, *number) {
            count += 1;
        }
    }
    count
}

/// How many globals can be taken, at most 8. It takes no memory.
#[tactic(auto, using(crate::proofs::GlobalLaws::few_globals))]
pub fn globals(chip: &Chip) -> u32
    ensures count { result ≡ length (globals chip.now) }
    ensures few { result ≤ 8 }
{
    count_takeable(chip, &[0, 1, 2, 3, 4, 5, 6, 7])
}

// Whether a usable row leads from the one wire to the other, where both are there.
fn is_joined_to(index: &Index, source: Option<WireNo>, target: Option<WireNo>) -> bool
    ensures { result ≡ is_joined_to index.now.chip.now (option_map (λ w. w.0) source)
        (option_map (λ w. w.0) target) }
{
    match (source, target) {
        (Some(source), Some(target)) => is_joined(index, source, target),
        _ => false,
    }
}

// The wire of the enable of a tile.
fn enable_wire(chip: &Chip, tile: TileAt) -> Option<WireNo>
    ensures { option_map (λ w. w.0) result ≡ wire_named chip.now tile clock_enable_name }
{
    chip.wire_named(tile, &clock_enable_name())
}

// The wire of the set or reset of a tile.
fn reset_wire(chip: &Chip, tile: TileAt) -> Option<WireNo>
    ensures { option_map (λ w. w.0) result ≡ wire_named chip.now tile set_reset_name }
{
    chip.wire_named(tile, &set_reset_name())
}

// Whether usable rows lead from the wire to each of the pins in the tile.
fn reaches(index: &Index, wire: Option<WireNo>, pins: Pins, tile: TileAt) -> bool
    ensures { result ≡ reaches index.now.chip.now (option_map (λ w. w.0) wire) pins tile }
{
    let enable = enable_wire(index.chip, tile);
    let reset = reset_wire(index.chip, tile);
    (!pins.enable || is_joined_to(index, wire, enable))
        && (!pins.reset || is_joined_to(index, wire, reset))
}

// Whether this is the kind of a logic tile.
fn is_logic_kind(kind: TileKind) -> bool
    ensures { result ≡ is_logic_kind kind }
{
    matches!(kind, TileKind::Logic)
}

/// Whether usable rows lead from a global to each of the pins in some logic tile.
pub fn serves(index: &Index, pins: Pins, number: u8) -> bool
    ensures { result ≡ serves index.now.chip.now pins number }
{
    let wire = global_wire(index.chip, number);
    for tile in index.chip.tiles() {
        if is_logic_kind(tile.kind) && reaches(index, wire, pins, tile.at) {
            return true;
        }
    }
    false
}

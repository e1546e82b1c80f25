//! What the points of a chip read.
ghost use Rattle.std.specs.Prelude.{◌≡◌, ◌<◌, ◌++◌, ◌∷◌, [], OnOk, if◌then◌else◌};
ghost use Rattle.ice_bits.specs.Configuration.{bits_of};
ghost use Rattle.ice_chip.specs.Names.{input_name};
ghost use Rattle.ice_decode.specs.Drivers.{driver, role_of};
ghost use Rattle.ice_decode.specs.Cells.{has_flop};
ghost use Rattle.ice_decode.specs.Direct.{takes_pad};
ghost use Rattle.ice_decode.specs.Tables.{AreDirect};
ghost use Rattle.ice_decode.specs.Reads.{at_pin, cell_inputs, carry_into, carry_inputs, global_feed, role_reads, driven_reads, reads_at};
ghost use Rattle.ice_decode.specs.Refusals.{AreDrivers};
ghost use Rattle.ice_decode.specs.Points.{HasWire};

use crate::direct::takes_pad;
use crate::settings::{has_carry, has_flop};
use crate::wire_roles::role_of;
use crate::{Driver, Point, Role};
use ice_base::{NoMemory, TileAt, WireNo};
use ice_bits::Bits;
use ice_chip::{Chip, input_name};

/// The wire of a name in a tile, or None exactly where there is none. It takes no memory.
pub fn at_pin(chip: &Chip, tile: TileAt, name: &[u8]) -> Option<Point>
    ensures { result ≡ at_pin chip.now tile name.now }
{
    match chip.wire_named(tile, name) {
        Some(wire) => Some(Point::Wire(wire)),
        None => None,
    }
}

// An input of a cell.
fn input(chip: &Chip, tile: TileAt, cell: u8, number: u8) -> Option<Point>
    ensures { result ≡ at_pin chip.now tile (input_name cell number) }
{
    at_pin(chip, tile, &input_name(cell, number))
}

// Adds the four inputs of a cell.
fn add_inputs(
    chip: &Chip,
    tile: TileAt,
    cell: u8,
    inputs: &mut Vec<Option<Point>>,
) -> Result<(), NoMemory>
    ensures { OnOk result (inputs.new.items ≡ inputs.old.items ++ cell_inputs chip.now tile cell) }
{
    inputs.push(input(chip, tile, cell, 0))?;
    inputs.push(input(chip, tile, cell, 1))?;
    inputs.push(input(chip, tile, cell, 2))?;
    inputs.push(input(chip, tile, cell, 3))?;
    Ok(())
}

// The carry into a cell.
fn carry_into(chip: &Chip, tile: TileAt, cell: u8) -> Option<Point>
    ensures { result ≡ carry_into chip.now tile cell }
{
    if cell == 0 {
        return at_pin(chip, tile, b"carry_in_mux");
    }
    Some(Point::Carry {
        tile,
        cell: cell - 1,
    })
}

// Adds what a carry that is enabled reads.
fn add_carry_inputs(
    chip: &Chip,
    tile: TileAt,
    cell: u8,
    inputs: &mut Vec<Option<Point>>,
) -> Result<(), NoMemory>
    ensures { OnOk result (inputs.new.items ≡ inputs.old.items ++ carry_inputs chip.now tile cell) }
{
    inputs.push(input(chip, tile, cell, 1))?;
    inputs.push(input(chip, tile, cell, 2))?;
    inputs.push(carry_into(chip, tile, cell))?;
    Ok(())
}

// What feeds a global.
fn global_feed(chip: &Chip, global: u8) -> Option<Point>
    ensures { result ≡ global_feed chip.now global }
{
    match chip.global_of(global) {
        Some(tile) => at_pin(chip, tile, b"fabout"),
        None => None,
    }
}

// Adds what the output of a cell reads: nothing, where it is a flip-flop's.
fn add_output_reads(
    chip: &Chip,
    bits: &Bits,
    tile: TileAt,
    cell: u8,
    inputs: &mut Vec<Option<Point>>,
) -> Result<(), NoMemory>
    ensures { OnOk result
        (inputs.new.items ≡ inputs.old.items ++ (if has_flop chip.now (bits_of bits.now) tile cell
        then [] else cell_inputs chip.now tile cell)) }
{
    if has_flop(chip, bits, tile, cell) {
        return Ok(());
    }
    add_inputs(chip, tile, cell, inputs)
}

// Adds what a global reads: nothing, where it has the level of a pad.
fn add_global_reads(
    chip: &Chip,
    bits: &Bits,
    direct: &[bool],
    global: u8,
    inputs: &mut Vec<Option<Point>>,
) -> Result<(), NoMemory>
    requires { AreDirect chip.now bits.now.extras direct.now }
    ensures { OnOk result
        (inputs.new.items ≡ inputs.old.items ++ (if takes_pad chip.now bits.now.extras global
        then [] else global_feed chip.now global ∷ [])) }
{
    if takes_pad(chip, bits, direct, global) {
        return Ok(());
    }
    inputs.push(global_feed(chip, global))?;
    Ok(())
}

// Adds what a wire without a row that is on reads, by its role.
fn add_role_reads(
    chip: &Chip,
    bits: &Bits,
    direct: &[bool],
    role: Role,
    inputs: &mut Vec<Option<Point>>,
) -> Result<(), NoMemory>
    requires { AreDirect chip.now bits.now.extras direct.now }
    ensures { OnOk result (inputs.new.items
        ≡ inputs.old.items ++ role_reads chip.now (bits_of bits.now) bits.now.extras role) }
{
    match role {
        Role::Plain
        | Role::PadInput(_)
        | Role::RamOutput(_)
        | Role::CarryIn(_)
        | Role::ClockEnable => Ok(()),
        Role::Output { tile, cell } => add_output_reads(chip, bits, tile, cell, inputs),
        Role::LookUp { tile, cell } => add_inputs(chip, tile, cell, inputs),
        Role::CarryOut { tile, cell } => {
            inputs.push(Some(Point::Carry { tile, cell }))?;
            Ok(())
        }
        Role::Global(global) => add_global_reads(chip, bits, direct, global, inputs),
    }
}

// Adds what a wire reads, by what drives it.
fn add_wire_reads(
    chip: &Chip,
    bits: &Bits,
    direct: &[bool],
    wire: WireNo,
    driver: Driver,
    inputs: &mut Vec<Option<Point>>,
) -> Result<(), NoMemory>
    requires direct { AreDirect chip.now bits.now.extras direct.now }
    requires wire { wire.0 < chip.now.wires }
    ensures { OnOk result (inputs.new.items ≡ inputs.old.items ++ driven_reads chip.now
        (bits_of bits.now) bits.now.extras (role_of chip.now wire.0) driver) }
{
    match driver {
        Driver::Several(_, _) => Ok(()),
        Driver::By(switch) => {
            inputs.push(Some(Point::Wire(switch.source)))?;
            Ok(())
        }
        Driver::Nothing => add_role_reads(chip, bits, direct, role_of(chip, wire), inputs),
    }
}

// What drives a wire.
fn driver_at(chip: &Chip, bits: &Bits, drivers: &[Driver], wire: WireNo) -> Driver
    requires drivers { AreDrivers chip.now (bits_of bits.now) drivers.now }
    requires wire { wire.0 < chip.now.wires }
    ensures { result ≡ driver chip.now (bits_of bits.now) wire.0 }
{
    let (_chip, _bits) = (chip, bits);
    drivers[wire.0 as usize]
}

/// Adds what a point reads, input by input, where the tables have what drives each wire, and which globals have the level of a pad. A
/// wire is one of the chip.
///
/// # Errors
/// Want of memory alone.
pub fn add_reads(
    chip: &Chip,
    bits: &Bits,
    drivers: &[Driver],
    direct: &[bool],
    point: Point,
    inputs: &mut Vec<Option<Point>>,
) -> Result<(), NoMemory>
    requires drivers { AreDrivers chip.now (bits_of bits.now) drivers.now }
    requires direct { AreDirect chip.now bits.now.extras direct.now }
    requires point { HasWire chip.now point }
    ensures { OnOk result (inputs.new.items
        ≡ inputs.old.items ++ reads_at chip.now (bits_of bits.now) bits.now.extras point) }
{
    match point {
        Point::Wire(wire) => {
            let driver = driver_at(chip, bits, drivers, wire);
            add_wire_reads(chip, bits, direct, wire, driver, inputs)
        }
        Point::Carry { tile, cell } if has_carry(chip, bits, tile, cell) => {
            add_carry_inputs(chip, tile, cell, inputs)
        }
        Point::Carry { .. } => Ok(()),
    }
}

//! The decoding of bits: the circuit in them, or the first fault.
ghost use Rattle.std.specs.Prelude.{◌≡◌, None, IfOk, IfErr, OnOk};
ghost use Rattle.ice_bits.specs.Configuration.{bits_of};
ghost use Rattle.ice_decode.specs.Drivers.{switches_on};
ghost use Rattle.ice_decode.specs.Tables.{AreSources, AreDirect};
ghost use Rattle.ice_decode.specs.Faults.{HasNoLoop};
ghost use Rattle.ice_decode.specs.FirstFaults.{contention, wrong_pad};
ghost use Rattle.ice_decode.specs.Loops.{IsOrderOf};
ghost use Rattle.ice_decode.specs.Refusals.{AreDrivers, IsOfChip, IsFaultless, IsFaultOf, IsCircuitOf};

use crate::contended::contention;
use crate::evaluation::{Found, search};
use crate::extras::{direct_globals, foreign_extra};
use crate::foreign::{foreign_function, foreign_source};
use crate::pin_types::wrong_pad;
use crate::rows::switches_on;
use crate::tables::{drivers_of, sources_of};
use ice_base::{NoMemory, WireNo};
use ice_bits::Bits;
use ice_chip::Chip;
use ice_decode::{Circuit, DecodeFault, Driver, Point, Switch, pin_type};
use std::alloc::Global;

/// Looks for a contended wire.
pub(crate) fn check_contention(
    chip: &Chip,
    bits: &Bits,
    drivers: &[Driver],
) -> Result<(), DecodeFault>
    requires { AreDrivers chip.now (bits_of bits.now) drivers.now }
    ensures none { OnOk result (contention chip.now (bits_of bits.now) ≡ None) }
    ensures fault { IfErr result (IsFaultOf chip.now (bits_of bits.now) bits.now.extras) }
{
    let _bits = bits;
    chip.is_chip();
    match contention(drivers) {
        None => Ok(()),
        Some((wire, first, second)) => Err(DecodeFault::Contention {
            wire: WireNo(wire as u32),
            rows: (first, second),
        }),
    }
}

// Looks for what no circuit holds: outputs of memories, foreign functions, and extra bits of no global.
fn check_foreign(
    alloc: Global,
    chip: &Chip,
    bits: &Bits,
    switches: &[Switch],
    sources: &[bool],
) -> Result<(), DecodeFault>
    requires rows { switches.now ≡ switches_on (bits_of bits.now) chip.now.groups }
    requires sources { AreSources (switches_on (bits_of bits.now) chip.now.groups) sources.now }
    requires uncontended { contention chip.now (bits_of bits.now) ≡ None }
    ensures none { OnOk result (IsOfChip chip.now (bits_of bits.now) bits.now.extras) }
    ensures fault { IfErr result (IsFaultOf chip.now (bits_of bits.now) bits.now.extras) }
{
    chip.is_chip();
    if let Some(wire) = foreign_source(alloc, chip, bits, switches)? {
        return Err(DecodeFault::ForeignSource { wire });
    }
    if let Some((tile, line)) = foreign_function(alloc, chip, bits, sources)? {
        return Err(DecodeFault::ForeignFunction { tile, line });
    }
    if let Some(extra) = foreign_extra(chip, bits.extras()) {
        return Err(DecodeFault::ForeignExtra { extra });
    }
    Ok(())
}

// Looks for a loop, and gives an order of evaluation.
fn check_loops(
    alloc: Global,
    chip: &Chip,
    bits: &Bits,
    drivers: &[Driver],
    direct: &[bool],
) -> Result<Vec<Point>, DecodeFault>
    requires drivers { AreDrivers chip.now (bits_of bits.now) drivers.now }
    requires direct { AreDirect chip.now bits.now.extras direct.now }
    requires of_chip { IsOfChip chip.now (bits_of bits.now) bits.now.extras }
    ensures order { IfOk result (λ order.
        IsOrderOf chip.now (bits_of bits.now) bits.now.extras order.items) }
    ensures loopless { OnOk result (HasNoLoop chip.now (bits_of bits.now) bits.now.extras) }
    ensures fault { IfErr result (IsFaultOf chip.now (bits_of bits.now) bits.now.extras) }
{
    chip.is_chip();
    match search(alloc, chip, bits, drivers, direct)? {
        Found::Order(order) => Ok(order),
        Found::Loop(wires) => Err(DecodeFault::ChipLoop { wires }),
    }
}

// Looks for a pad of a wrong type.
fn check_pin_types(chip: &Chip, bits: &Bits, sources: &[bool]) -> Result<(), DecodeFault>
    requires sources { AreSources (switches_on (bits_of bits.now) chip.now.groups) sources.now }
    requires of_chip { IsOfChip chip.now (bits_of bits.now) bits.now.extras }
    requires loopless { HasNoLoop chip.now (bits_of bits.now) bits.now.extras }
    ensures none { OnOk result (wrong_pad chip.now (bits_of bits.now) ≡ None) }
    ensures fault { IfErr result (IsFaultOf chip.now (bits_of bits.now) bits.now.extras) }
{
    let _extras = bits.extras();
    if let Some(pad) = wrong_pad(chip, bits, sources) {
        let value = pin_type(chip, bits, pad);
        return Err(DecodeFault::PinType { pad, value });
    }
    Ok(())
}

// Whether a row that is on reads each wire.
fn sources_on(
    alloc: Global,
    chip: &Chip,
    bits: &Bits,
    switches: &[Switch],
) -> Result<Vec<bool>, NoMemory>
    requires { switches.now ≡ switches_on (bits_of bits.now) chip.now.groups }
    ensures { IfOk result (λ sources.
        AreSources (switches_on (bits_of bits.now) chip.now.groups) sources.items) }
{
    let _bits = bits;
    let wires = chip.wires();
    let sources = sources_of(alloc, wires, switches)?;
    Ok(sources)
}

// An order of evaluation, where the bits have no fault, by the rows that are on, what drives each wire, and which globals have the level
// of a pad.
fn check(
    alloc: Global,
    chip: &Chip,
    bits: &Bits,
    switches: &[Switch],
    drivers: &[Driver],
    direct: &[bool],
) -> Result<Vec<Point>, DecodeFault>
    requires rows { switches.now ≡ switches_on (bits_of bits.now) chip.now.groups }
    requires drivers { AreDrivers chip.now (bits_of bits.now) drivers.now }
    requires direct { AreDirect chip.now bits.now.extras direct.now }
    ensures faultless { OnOk result (IsFaultless chip.now (bits_of bits.now) bits.now.extras) }
    ensures order { IfOk result (λ order.
        IsOrderOf chip.now (bits_of bits.now) bits.now.extras order.items) }
    ensures fault { IfErr result (IsFaultOf chip.now (bits_of bits.now) bits.now.extras) }
{
    check_contention(chip, bits, drivers)?;
    let sources = sources_on(alloc, chip, bits, switches)?;
    check_foreign(alloc, chip, bits, switches, &sources)?;
    let order = check_loops(alloc, chip, bits, drivers, direct)?;
    check_pin_types(chip, bits, &sources)?;
    Ok(order)
}

// The circuit that keeps a copy of the bits, by what drives each wire, which globals have the level of a pad, and an order of
// evaluation.
fn circuit_of(
    alloc: Global,
    chip: &Chip,
    bits: &Bits,
    drivers: Vec<Driver>,
    direct: [bool; 8],
    order: Vec<Point>,
) -> Result<Circuit, NoMemory>
    requires faultless { IsFaultless chip.now (bits_of bits.now) bits.now.extras }
    requires drivers { AreDrivers chip.now (bits_of bits.now) drivers.items }
    requires direct { AreDirect chip.now bits.now.extras direct }
    requires order { IsOrderOf chip.now (bits_of bits.now) bits.now.extras order.items }
    ensures { IfOk result (λ circuit. IsCircuitOf chip.now bits.now circuit) }
{
    let _chip = chip;
    let bits = bits.copy(alloc)?;
    Ok(Circuit::of(bits, drivers, direct, order))
}

/// The circuit in the bits of a chip, where they have no fault.
///
/// # Errors
/// The fault of the first kind of which the bits have one, in the order of `DecodeFault`, at the first place of that kind; any loop
/// may be told. Want of memory may come at any time.
pub fn decode(alloc: Global, chip: &Chip, bits: &Bits) -> Result<Circuit, DecodeFault>
    ensures circuit { IfOk result (λ circuit. IsCircuitOf chip.now bits.now circuit) }
    ensures own_bits { IfOk result (λ circuit. IsCircuitOf chip.now circuit.configuration circuit) }
    ensures fault { IfErr result (IsFaultOf chip.now (bits_of bits.now) bits.now.extras) }
{
    let wires = chip.wires();
    let switches = switches_on(alloc, chip, bits)?;
    let drivers = drivers_of(alloc, wires, &switches)?;
    let direct = direct_globals(chip, bits);
    let order = check(alloc, chip, bits, &switches, &drivers, direct.as_slice())?;
    Ok(circuit_of(alloc, chip, bits, drivers, direct, order)?)
}

//! What the ports of block RAMs get: the pins of the first RAMs of the chip.
ghost use Rattle.std.specs.Prelude.{◌≡◌, length, slice_get};
ghost use Rattle.ice_pads.specs.Assign.{pin_for, with_pins, with_rams};
ghost use Rattle.ice_pads.specs.Ports.{with_next};
ghost use Rattle.ice_pads.specs.Answers.{Answers, Extends};

use crate::places::port_name;
use crate::{Chosen, PinFault, Want, suits};
use ice_chip::{Chip, Pad};
use ice_chip_rams::sites;
use ice_chip_sockets::first_pins;
use ice_net::Netlist;
use std::alloc::Global;

// What the port of this number gets at a pin, if there is one that has the wires.
fn pin_for(
    alloc: Global,
    chip: &Chip,
    netlist: &Netlist,
    port: usize,
    want: Want,
    pin: Option<Pad>,
) -> Result<Chosen, PinFault>
    ensures { Answers result (pin_for chip.now netlist.now port want pin) }
{
    let Some(pin) = pin else {
        let port = port_name(alloc, netlist, port)?;
        return Err(PinFault::NoPadLeft { port });
    };
    if !suits(chip, want, pin) {
        let port = port_name(alloc, netlist, port)?;
        return Err(PinFault::PadLacks { port });
    }
    Ok(Chosen {
        pad: pin,
        pullup: false,
    })
}

// The pin at a place, if there is one.
fn pin_among(pins: &[Pad], place: usize) -> Option<Pad>
    ensures { result ≡ slice_get pins.now place }
{
    pins.get(place).copied()
}

// Gives the next port a pin.
fn add_pin(
    alloc: Global,
    chip: &Chip,
    netlist: &Netlist,
    want: Want,
    pin: Option<Pad>,
    chosen: &mut Vec<Chosen>,
) -> Result<(), PinFault>
    ensures { Extends result chosen.new.items (with_next chosen.old.items
        (pin_for chip.now netlist.now (length chosen.old.items) want pin)) }
{
    let next = pin_for(alloc, chip, netlist, chosen.len(), want, pin)?;
    chosen.push(next)?;
    Ok(())
}

// Gives each of these ports the pin at its place.
fn add_pins(
    alloc: Global,
    chip: &Chip,
    netlist: &Netlist,
    pins: &[Pad],
    wants: &[Want],
    chosen: &mut Vec<Chosen>,
) -> Result<(), PinFault>
    ensures { Extends result chosen.new.items
        (with_pins chip.now netlist.now pins.now 0 chosen.old.items wants.now) }
{
    for (place, want) in wants.iter().enumerate() {
        add_pin(alloc, chip, netlist, *want, pin_among(pins, place), chosen)?;
    }
    Ok(())
}

/// Gives each port of block RAMs its pin, or answers that there are too few RAMs, or the first port whose pin lacks a wire.
pub fn add_rams(
    alloc: Global,
    chip: &Chip,
    netlist: &Netlist,
    rams: usize,
    wants: &[Want],
    chosen: &mut Vec<Chosen>,
) -> Result<(), PinFault>
    ensures { Extends result chosen.new.items
        (with_rams chip.now netlist.now chosen.old.items rams wants.now) }
{
    let sites = sites(alloc, chip)?;
    if sites.len() < rams {
        let Ok(need) = u32::try_from(rams) else {
            return Err(PinFault::NoMemory);
        };
        let have = sites.len() as u32;
        return Err(PinFault::TooManyRams { need, have });
    }
    let pins = first_pins(alloc, &sites, rams)?;
    add_pins(alloc, chip, netlist, &pins, wants, chosen)
}

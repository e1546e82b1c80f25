//! What constraints give to ports, line by line.
ghost use Rattle.std.specs.Prelude.{◌≡◌, OnOk};
ghost use Rattle.ice_pads.specs.Closings.{with_first};
ghost use Rattle.ice_pads.specs.Constraints.{want_of, free_pad, by_port, given_by};
ghost use Rattle.ice_pads.specs.Tables.{AreKept};
ghost use Rattle.ice_pads.specs.Answers.{Extends};

use crate::outer::{Outer, outer_name, outer_places, port_named};
use crate::tables::Tables;
use crate::{Given, PinFault, Want, suits};
use ice_base::Name;
use ice_chip::{Chip, Pad};
use ice_pcf::Constraint;
use indexmap::IndexMap;
use std::alloc::Global;

// What the port at a place needs of its pad; nothing where there is none.
fn want_of(wants: &[Want], port: usize) -> Want
    ensures { result ≡ want_of wants.now port }
{
    match wants.get(port) {
        Some(want) => *want,
        None => Want {
            input: false,
            output: false,
            enable: false,
            pullup: false,
        },
    }
}

// The pad that a line gives to a port: one that no earlier line gave, where no earlier line gave that port one.
fn free_pad(
    pins: &IndexMap<Name, Pad>,
    tables: &Tables,
    line: &Constraint,
    port: usize,
) -> Result<Pad, PinFault>
    requires { AreKept tables.now }
    ensures { result ≡ free_pad pins.now.entries tables.now.given.items line.now port }
{
    let Some(pad) = pins.get(&line.pin) else {
        return Err(PinFault::UnknownPin { line: line.line });
    };
    if let Some(earlier) = tables.of_port(port) {
        return Err(PinFault::PortTwice {
            first: earlier.line,
            second: line.line,
        });
    }
    if let Some(earlier) = tables.of_pad(*pad) {
        return Err(PinFault::PinTwice {
            first: earlier.line,
            second: line.line,
        });
    }
    Ok(*pad)
}

// What a line gives to the port of its name, if there is one, behind what earlier lines gave.
fn give_line(
    alloc: Global,
    chip: &Chip,
    pins: &IndexMap<Name, Pad>,
    outer: &Outer<'_>,
    wants: &[Want],
    tables: &mut Tables,
    line: &Constraint,
    port: Option<usize>,
) -> Result<(), PinFault>
    requires { AreKept tables.old }
    ensures given { Extends result tables.new.given.items (by_port chip.now pins.now.entries
        (with_first outer.now.first outer.now.netlist.now) wants.now tables.old.given.items line.now port) }
    ensures kept { OnOk result (AreKept tables.new) }
{
    let Some(port) = port else {
        if line.lenient {
            return Ok(());
        }
        return Err(PinFault::UnknownPort { line: line.line });
    };
    let pad = free_pad(pins, tables, line, port)?;
    if !suits(chip, want_of(wants, port), pad) {
        let port = outer_name(alloc, outer, port)?;
        return Err(PinFault::PadLacks { port });
    }
    tables.push(Given {
        port,
        pad,
        line: line.line,
        pullup: line.pullup,
    })?;
    Ok(())
}

/// What all lines give, or the first fault.
pub fn give_all(
    alloc: Global,
    chip: &Chip,
    pins: &IndexMap<Name, Pad>,
    outer: &Outer<'_>,
    wants: &[Want],
    tables: &mut Tables,
    lines: &[Constraint],
) -> Result<(), PinFault>
    requires { AreKept tables.old }
    ensures given { Extends result tables.new.given.items (given_by chip.now pins.now.entries
        (with_first outer.now.first outer.now.netlist.now) wants.now tables.old.given.items lines.now) }
    ensures kept { OnOk result (AreKept tables.new) }
{
    let places = outer_places(alloc, outer)?;
    for line in lines {
        let port = port_named(outer, &places, line.name.as_bytes());
        give_line(alloc, chip, pins, outer, wants, tables, line, port)?;
    }
    Ok(())
}

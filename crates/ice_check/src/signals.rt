//! The faults of signals: one that is read or shown and that nothing drives, and one that is driven twice.
ghost use Rattle.std.specs.Prelude.{◌≡◌, ◌<◌, ◌+◌, ◌++◌, length, map, nat_lt, IfOk, OnOk};
ghost use Rattle.std.specs.List.{flat_map};
ghost use Rattle.ice_net.specs.Drivers.{pin_of, pad_signals, outputs};
ghost use Rattle.ice_net.specs.Uses.{pad_uses};
ghost use Rattle.ice_check.specs.Tables.{ArePlaces, AreTimes, AreDrivers};
ghost use Rattle.ice_check.specs.Faults.{uses_of, shown_by, shown_of, is_nothing, undriven, driven_twice};

use crate::cells::{ENABLED_TYPE, OUTPUT_TYPE};
use crate::drivers::{buffers, drivers};
use crate::lists::{outputs, pads};
use crate::tables::{places, times_of};
use ice_base::{NoMemory, SignalNo};
use ice_net::{Cell, CellKind, Netlist, Port, SignalDriver, Way, signal_at};
use std::alloc::Global;

// Adds the inputs of an SB_IO that are in use.
fn add_pad_uses(
    list: &mut Vec<Option<SignalNo>>,
    pin_type: u8,
    ins: &[Option<SignalNo>],
) -> Result<(), NoMemory>
    ensures { OnOk result (list.new.items ≡ list.old.items ++ pad_uses pin_type ins.now) }
{
    if pin_type == OUTPUT_TYPE {
        list.push(signal_at(ins, 1))?;
        return Ok(());
    }
    if pin_type == ENABLED_TYPE {
        list.push(signal_at(ins, 1))?;
        list.push(signal_at(ins, 2))?;
    }
    Ok(())
}

// Adds the inputs of a cell that are in use.
fn add_uses(list: &mut Vec<Option<SignalNo>>, cell: &Cell) -> Result<(), NoMemory>
    ensures { OnOk result (list.new.items ≡ list.old.items ++ uses_of cell.now) }
{
    let ins = cell.ins.as_slice();
    match cell.kind {
        CellKind::PadCell { pin_type, .. } => add_pad_uses(list, pin_type, ins),
        _ => {
            list.extend_from_slice(ins)?;
            Ok(())
        }
    }
}

// The inputs in use, cell by cell.
fn uses(alloc: Global, cells: &[Cell]) -> Result<Vec<Option<SignalNo>>, NoMemory>
    ensures { IfOk result (λ list. list.items ≡ flat_map uses_of cells.now) }
{
    let mut list = Vec::new(alloc);
    for cell in cells {
        add_uses(&mut list, cell)?;
    }
    Ok(list)
}

// The signal that a port shows, by whether the port is at an SB_IO.
fn shown_by(port: Port, buffered: bool) -> Option<SignalNo>
    ensures { result ≡ shown_by port buffered port.way }
{
    match port.way {
        Way::Output if !buffered => Some(port.signal),
        _ => None,
    }
}

// The signal that a port shows, by the first SB_IO at each signal.
fn shown_of(netlist: &Netlist, buffers: &[Option<usize>], port: Port) -> Option<SignalNo>
    requires buffers { ArePlaces (length netlist.now.names)
        (map pin_of netlist.now.cells) buffers.now }
    requires within { port.signal.0 < length netlist.now.names }
    ensures { result ≡ shown_of netlist.now.cells port }
{
    shown_by(port, buffers[port.signal.0 as usize].is_some())
}

// The first place at which an input in use of a cell reads each signal, in the list of all inputs in use.
#[tactic(auto, using(crate::proofs::ListsBelow::uses_below))]
fn used_at(alloc: Global, netlist: &Netlist) -> Result<Vec<Option<usize>>, NoMemory>
    ensures { IfOk result (λ table.
        ArePlaces (length netlist.now.names) (flat_map uses_of netlist.now.cells) table.items) }
{
    let uses = uses(alloc, netlist.cells())?;
    let table = places(alloc, netlist.signals() as usize, &uses)?;
    Ok(table)
}

// The place of the first port that shows each signal.
#[tactic(auto, using(crate::proofs::ListsBelow::shown_below))]
fn shown_at(alloc: Global, netlist: &Netlist) -> Result<Vec<Option<usize>>, NoMemory>
    ensures { IfOk result (λ table. ArePlaces (length netlist.now.names)
        (map (shown_of netlist.now.cells) netlist.now.ports) table.items) }
{
    let buffers = buffers(alloc, netlist)?;
    let mut shown = Vec::new(alloc);
    for port in netlist.ports() {
        shown.push(shown_of(netlist, &buffers, *port))?;
    }
    let table = places(alloc, netlist.signals() as usize, &shown)?;
    Ok(table)
}

// Whether a driver is none.
fn is_nothing(driver: SignalDriver) -> bool
    ensures { result ≡ is_nothing driver }
{
    match driver {
        SignalDriver::Nothing => true,
        SignalDriver::Pad(_) | SignalDriver::Output(_) => false,
    }
}

// The first signal that is undriven, by the drivers and by where signals are used and shown.
#[tactic(auto, using(crate::proofs::FirstNumbers::first_here, crate::proofs::FirstNumbers::first_next, crate::proofs::FirstNumbers::first_none))]
fn first_undriven(
    netlist: &Netlist,
    drivers: &[SignalDriver],
    used: &[Option<usize>],
    shown: &[Option<usize>],
) -> Option<usize>
    requires drivers { AreDrivers netlist.now drivers.now }
    requires used { ArePlaces (length netlist.now.names)
        (flat_map uses_of netlist.now.cells) used.now }
    requires shown { ArePlaces (length netlist.now.names)
        (map (shown_of netlist.now.cells) netlist.now.ports) shown.now }
    ensures { result ≡ undriven netlist.now }
{
    for signal in 0..drivers.len() {
        let read = used[signal].is_some() || shown[signal].is_some();
        if read && is_nothing(drivers[signal]) {
            return Some(signal);
        }
    }
    None
}

/// The number of the first signal that nothing drives and that an input in use reads or an Output port without an SB_IO
/// shows.
///
/// # Errors
/// Want of memory alone.
pub(crate) fn undriven(alloc: Global, netlist: &Netlist) -> Result<Option<usize>, NoMemory>
    ensures { IfOk result (λ signal. signal ≡ undriven netlist.now) }
{
    let drivers = drivers(alloc, netlist)?;
    let used = used_at(alloc, netlist)?;
    let shown = shown_at(alloc, netlist)?;
    let signal = first_undriven(netlist, &drivers, &used, &shown);
    Ok(signal)
}

// Whether so many pads and so many outputs are more than one driver.
fn is_twice(pads: usize, outputs: usize) -> bool
    ensures { result ≡ nat_lt 1 (pads + outputs) }
{
    1 < pads.saturating_add(outputs)
}

// The first signal that is driven twice, by how many pads and how many outputs drive each.
#[tactic(auto, using(crate::proofs::FirstNumbers::first_here, crate::proofs::FirstNumbers::first_next, crate::proofs::FirstNumbers::first_none))]
fn first_twice(netlist: &Netlist, pad_counts: &[usize], output_counts: &[usize]) -> Option<usize>
    requires pads { AreTimes (length netlist.now.names) (pad_signals netlist.now) pad_counts.now }
    requires outputs { AreTimes (length netlist.now.names) (outputs netlist.now) output_counts.now }
    ensures { result ≡ driven_twice netlist.now }
{
    for signal in 0..pad_counts.len() {
        if is_twice(pad_counts[signal], output_counts[signal]) {
            return Some(signal);
        }
    }
    None
}

// How often each signal is driven by a pad.
#[tactic(auto, using(crate::proofs::ListsBelow::pads_below))]
fn pad_counts(alloc: Global, netlist: &Netlist) -> Result<Vec<usize>, NoMemory>
    ensures { IfOk result (λ table.
        AreTimes (length netlist.now.names) (pad_signals netlist.now) table.items) }
{
    let buffers = buffers(alloc, netlist)?;
    let pads = pads(alloc, netlist, &buffers)?;
    let table = times_of(alloc, netlist.signals() as usize, &pads)?;
    Ok(table)
}

// How often each signal is driven by an output.
#[tactic(auto, using(crate::proofs::ListsBelow::outputs_below))]
fn output_counts(alloc: Global, netlist: &Netlist) -> Result<Vec<usize>, NoMemory>
    ensures { IfOk result (λ table.
        AreTimes (length netlist.now.names) (outputs netlist.now) table.items) }
{
    let outputs = outputs(alloc, netlist.cells())?;
    let table = times_of(alloc, netlist.signals() as usize, &outputs)?;
    Ok(table)
}

/// The number of the first signal with two drivers among the pads and the connected outputs.
///
/// # Errors
/// Want of memory alone.
pub(crate) fn driven_twice(alloc: Global, netlist: &Netlist) -> Result<Option<usize>, NoMemory>
    ensures { IfOk result (λ signal. signal ≡ driven_twice netlist.now) }
{
    let pads = pad_counts(alloc, netlist)?;
    let outputs = output_counts(alloc, netlist)?;
    let signal = first_twice(netlist, &pads, &outputs);
    Ok(signal)
}

//! What drives each signal of a netlist, and where its SB_IO is.
ghost use Rattle.std.specs.Prelude.{◌≡◌, length, map, IfOk};
ghost use Rattle.ice_net.specs.Drivers.{pin_of, pad_signals, outputs, driver_from};
ghost use Rattle.ice_net.specs.Formed.{IsFormed};
ghost use Rattle.ice_check.specs.Tables.{ArePlaces, AreDrivers, AreJoined};

use crate::lists::{outputs, pads, pins};
use crate::tables::places;
use ice_base::NoMemory;
use ice_net::{Netlist, SignalDriver};
use std::alloc::Global;

/// What drives each signal of a netlist, and where its SB_IO is, by the number of the signal.
#[derive(Drop)]
pub(crate) struct SignalTables {
    /// What drives it.
    pub(crate) drivers: Vec<SignalDriver>,
    /// The place of the first SB_IO at it, in the list of cells.
    pub(crate) buffers: Vec<Option<usize>>,
}

/// The place of the first SB_IO at each signal, in the list of cells.
///
/// # Errors
/// Want of memory alone.
#[tactic(auto, using(crate::proofs::ListsBelow::pins_below))]
pub(crate) fn buffers(alloc: Global, netlist: &Netlist) -> Result<Vec<Option<usize>>, NoMemory>
    ensures places { IfOk result (λ table.
        ArePlaces (length netlist.now.names) (map pin_of netlist.now.cells) table.items) }
    ensures formed { IsFormed netlist.now }
{
    let pins = pins(alloc, netlist.cells())?;
    let table = places(alloc, netlist.signals() as usize, &pins)?;
    Ok(table)
}

// What has the first of the places.
fn driver_from(pad: Option<usize>, output: Option<usize>) -> SignalDriver
    ensures { result ≡ driver_from pad output }
{
    match (pad, output) {
        (Some(port), _) => SignalDriver::Pad(port),
        (None, Some(cell)) => SignalDriver::Output(cell),
        (None, None) => SignalDriver::Nothing,
    }
}

// The drivers, by the first pad and the first output at each signal.
#[tactic(auto, using(crate::proofs::DriverTables::joined_none, crate::proofs::DriverTables::joined_more))]
fn joined(
    alloc: Global,
    pads: &[Option<usize>],
    outputs: &[Option<usize>],
) -> Result<Vec<SignalDriver>, NoMemory>
    requires { length outputs.now ≡ length pads.now }
    ensures { IfOk result (λ table. AreJoined (length pads.now) pads.now outputs.now table.items) }
{
    let mut table = Vec::new(alloc);
    for signal in 0..pads.len() {
        table.push(driver_from(pads[signal], outputs[signal]))?;
    }
    Ok(table)
}

// The place of the first port whose pad drives each signal.
#[tactic(auto, using(crate::proofs::ListsBelow::pads_below))]
fn pad_places(alloc: Global, netlist: &Netlist) -> Result<Vec<Option<usize>>, NoMemory>
    ensures places { IfOk result (λ table.
        ArePlaces (length netlist.now.names) (pad_signals netlist.now) table.items) }
    ensures formed { IsFormed netlist.now }
{
    let buffers = buffers(alloc, netlist)?;
    let pads = pads(alloc, netlist, &buffers)?;
    let table = places(alloc, netlist.signals() as usize, &pads)?;
    Ok(table)
}

// The place of the first cell whose output drives each signal.
#[tactic(auto, using(crate::proofs::ListsBelow::outputs_below))]
fn output_places(alloc: Global, netlist: &Netlist) -> Result<Vec<Option<usize>>, NoMemory>
    ensures { IfOk result (λ table.
        ArePlaces (length netlist.now.names) (outputs netlist.now) table.items) }
{
    let outputs = outputs(alloc, netlist.cells())?;
    let table = places(alloc, netlist.signals() as usize, &outputs)?;
    Ok(table)
}

/// What drives each signal.
///
/// # Errors
/// Want of memory alone.
#[tactic(auto, using(crate::proofs::DriverTables::drivers_joined))]
pub(crate) fn drivers(alloc: Global, netlist: &Netlist) -> Result<Vec<SignalDriver>, NoMemory>
    ensures { IfOk result (λ table. AreDrivers netlist.now table.items) }
{
    let pads = pad_places(alloc, netlist)?;
    let outputs = output_places(alloc, netlist)?;
    let table = joined(alloc, &pads, &outputs)?;
    Ok(table)
}

/// The tables of a netlist by the number of a signal.
///
/// # Errors
/// Want of memory alone.
pub(crate) fn signal_tables(alloc: Global, netlist: &Netlist) -> Result<SignalTables, NoMemory>
    ensures drivers { IfOk result (λ tables. AreDrivers netlist.now tables.drivers.items) }
    ensures buffers { IfOk result (λ tables.
        ArePlaces (length netlist.now.names) (map pin_of netlist.now.cells) tables.buffers.items) }
    ensures formed { IsFormed netlist.now }
{
    let buffers = buffers(alloc, netlist)?;
    let drivers = drivers(alloc, netlist)?;
    Ok(SignalTables { drivers, buffers })
}

//! The check of a netlist: whether it is sound, and the fault that it has otherwise.
ghost use Rattle.std.specs.Prelude.{◌≡◌, None, length, IfOk, IfErr, OnOk};
ghost use Rattle.ice_base_values.specs.Order.{IsOrder};
ghost use Rattle.ice_net.specs.Formed.{IsFormed};
ghost use Rattle.ice_net.specs.Meaning.{depends_on};
ghost use Rattle.ice_check.specs.Tables.{AreDrivers};
ghost use Rattle.ice_check.specs.Loops.{cells_before};
ghost use Rattle.ice_check.specs.Faults.{undriven, driven_twice};
ghost use Rattle.ice_check.specs.Sound.{IsSound, AreSignalsSound, ArePadsSound};
ghost use Rattle.ice_check.specs.Refusals.{IsFaultOf, pin_type_by};

use crate::cells::{pin_not_port, pin_type_out};
use crate::drivers::signal_tables;
use crate::laws::faults_are_not_sound;
use crate::loops::search_signals;
use crate::naming::{names_of, port_name, signal_name};
use crate::order::order_of_cells;
use crate::ports::{inout_bare, pad_shared};
use crate::signals::{driven_twice, undriven};
use crate::sound::Orders;
use crate::{NetFault, Sound};
use ice_base::NoMemory;
use ice_base_values::Outcome;
use ice_net::{CellKind, Netlist, SignalDriver};
use std::alloc::Global;

// The PIN_TYPE of an SB_IO, and 0 for other cells.
fn pin_type_by(kind: CellKind) -> u8
    ensures { result ≡ pin_type_by kind }
{
    match kind {
        CellKind::PadCell { pin_type, .. } => pin_type,
        _ => 0,
    }
}

// Looks for a signal that is used and not driven.
fn check_driven(alloc: Global, netlist: &Netlist) -> Result<(), NetFault>
    requires { IsFormed netlist.now }
    ensures driven { OnOk result (undriven netlist.now ≡ None) }
    ensures fault { IfErr result (IsFaultOf netlist.now) }
{
    if let Some(signal) = undriven(alloc, netlist)? {
        let signal = signal_name(alloc, netlist, signal)?;
        return Err(NetFault::Undriven { signal });
    }
    Ok(())
}

// Looks for a signal that is driven twice.
fn check_driven_once(alloc: Global, netlist: &Netlist) -> Result<(), NetFault>
    requires formed { IsFormed netlist.now }
    requires driven { undriven netlist.now ≡ None }
    ensures once { OnOk result (driven_twice netlist.now ≡ None) }
    ensures fault { IfErr result (IsFaultOf netlist.now) }
{
    if let Some(signal) = driven_twice(alloc, netlist)? {
        let signal = signal_name(alloc, netlist, signal)?;
        return Err(NetFault::DrivenTwice { signal });
    }
    Ok(())
}

// Looks for the faults of signals, and gives an order of evaluation of the signals.
fn check_signals(
    alloc: Global,
    netlist: &Netlist,
    drivers: &[SignalDriver],
) -> Result<Vec<usize>, NetFault>
    requires formed { IsFormed netlist.now }
    requires drivers { AreDrivers netlist.now drivers.now }
    ensures order { IfOk result (λ order.
        IsOrder (length netlist.now.names) (depends_on netlist.now) order.items) }
    ensures sound { OnOk result (AreSignalsSound netlist.now) }
    ensures fault { IfErr result (IsFaultOf netlist.now) }
{
    check_driven(alloc, netlist)?;
    check_driven_once(alloc, netlist)?;
    match search_signals(alloc, netlist, drivers)? {
        Outcome::Order(order) => Ok(order),
        Outcome::Cycle(cycle) => {
            let signals = names_of(alloc, netlist, &cycle)?;
            Err(NetFault::Loop { signals })
        }
    }
}

// Looks for the faults of pads.
fn check_pads(alloc: Global, netlist: &Netlist) -> Result<(), NetFault>
    requires { AreSignalsSound netlist.now }
    ensures sound { OnOk result (ArePadsSound netlist.now) }
    ensures fault { IfErr result (IsFaultOf netlist.now) }
{
    if let Some(place) = pad_shared(alloc, netlist)? {
        let port = port_name(alloc, netlist, place)?;
        return Err(NetFault::PadShared { port });
    }
    if let Some(place) = pin_type_out(netlist) {
        let cell = &netlist.cells()[place];
        return Err(NetFault::PinTypeOut {
            line: cell.line,
            value: pin_type_by(cell.kind),
        });
    }
    if let Some(place) = pin_not_port(netlist) {
        let cell = &netlist.cells()[place];
        return Err(NetFault::PinNotPort { line: cell.line });
    }
    if let Some(place) = inout_bare(alloc, netlist)? {
        let port = port_name(alloc, netlist, place)?;
        return Err(NetFault::InoutBare { port });
    }
    Ok(())
}

// Looks for the faults of signals, and gives orders of evaluation of the cells and of the signals.
fn orders(alloc: Global, netlist: &Netlist, drivers: &[SignalDriver]) -> Result<Orders, NetFault>
    requires formed { IsFormed netlist.now }
    requires drivers { AreDrivers netlist.now drivers.now }
    ensures cells { IfOk result (λ orders.
        IsOrder (length netlist.now.cells) (cells_before netlist.now) orders.cells.items) }
    ensures signals { IfOk result (λ orders.
        IsOrder (length netlist.now.names) (depends_on netlist.now) orders.signals.items) }
    ensures sound { OnOk result (AreSignalsSound netlist.now) }
    ensures fault { IfErr result (IsFaultOf netlist.now) }
{
    let signals = check_signals(alloc, netlist, drivers)?;
    let cells = order_of_cells(alloc, netlist, drivers)?;
    Ok(Orders { cells, signals })
}

/// The netlist with all that is known of it, where it is sound. A netlist that is refused is dropped.
///
/// # Errors
/// The fault of the first kind that the netlist has, in the order of `NetFault`, at the first place of that kind; any loop may
/// be told. Want of memory may come at any time.
pub fn check(alloc: Global, netlist: Netlist) -> Result<Sound, NetFault>
    ensures netlist { IfOk result (λ sound. sound ≡ netlist) }
    ensures sound { OnOk result (IsSound netlist) }
    ensures fault { IfErr result (IsFaultOf netlist) }
{
    let tables = signal_tables(alloc, &netlist)?;
    let orders = orders(alloc, &netlist, &tables.drivers)?;
    check_pads(alloc, &netlist)?;
    Ok(Sound::of(netlist, orders, tables))
}

/// What is known of a netlist that is sound.
///
/// # Errors
/// Want of memory alone.
pub fn check_sound(alloc: Global, netlist: Netlist) -> Result<Sound, NoMemory>
    requires { IsSound netlist }
    ensures { IfOk result (λ sound. sound ≡ netlist) }
{
    faults_are_not_sound();
    match check(alloc, netlist) {
        Ok(sound) => Ok(sound),
        Err(NetFault::NoMemory) => Err(NoMemory),
        Err(_) => unreachable!(),
    }
}

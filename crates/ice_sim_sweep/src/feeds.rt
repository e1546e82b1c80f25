//! What signals, ports and cells are compiled to.
ghost use Rattle.std.specs.Prelude.{◌≡◌, ℕ, ◌<◌, ◌≤◌, ◌+◌, ◌^◌, ◌++◌, length, map, All, Option, Some, None, slice_index_or, OnOk};
ghost use Rattle.ice_net.specs.Formed.{IsBelow, IsFormedCell};
ghost use Rattle.ice_net.specs.Drivers.{pin_of};
ghost use Rattle.ice_check.specs.Tables.{AreDrivers, ArePlaces};
ghost use Rattle.ice_sim_sweep.specs.Slots.{slot_at, gate_of, enable_slot, set_slot};
ghost use Rattle.ice_sim_sweep.specs.Feeds.{feed_of, kind_feed, pin_feed, pad_feed, tap_of, no_tap, bare_tap, pad_tap, kind_tap, keeper_at};

use crate::parts::{Feed, Gate, Keeper, Tap};
use ice_base::{NoMemory, SignalNo};
use ice_net::{Cell, CellKind, Netlist, Port, SignalDriver, Way};

// The table of the majority of the first three inputs.
const MAJORITY: u16 = 0xe8;

// The table of the first input.
const FIRST: u16 = 2;

// The PIN_TYPE of an output.
const OUTPUT: u8 = 25;

// The PIN_TYPE of an output with an enable.
const ENABLED: u8 = 41;

// The slot of the input at a place; `bare` where it is missing.
fn slot_at(bare: u32, ins: &[Option<SignalNo>], k: usize) -> u32
    ensures { result ≡ slot_at bare ins.now k }
{
    match ins.get(k) {
        Some(Some(signal)) => signal.0,
        _ => bare,
    }
}

// The table over the inputs of a cell, in a netlist of so many signals.
fn gate(signals: u32, table: u16, ins: &[Option<SignalNo>], out: u32) -> Gate
    ensures { result ≡ gate_of signals table ins.now out }
{
    Gate {
        table,
        first: slot_at(signals, ins, 0),
        second: slot_at(signals, ins, 1),
        third: slot_at(signals, ins, 2),
        fourth: slot_at(signals, ins, 3),
        out,
    }
}

// Where the level of a pad's D_IN_0 comes from, by the signal at its PACKAGE_PIN.
fn pin_feed(netlist: &Netlist, drivers: &[SignalDriver], ins: &[Option<SignalNo>]) -> Feed
    requires drivers { AreDrivers netlist.now drivers.now }
    requires below { All (IsBelow (length netlist.now.names)) ins.now }
    ensures { result ≡ pin_feed netlist.now (slice_index_or ins.now 0 None) }
{
    let Some(Some(pin)) = ins.first() else {
        return Feed::Nothing;
    };
    match drivers[pin.0 as usize] {
        SignalDriver::Pad(port) => Feed::Port(port),
        SignalDriver::Nothing | SignalDriver::Output(_) => Feed::Nothing,
    }
}

// Where the level at a cell's output comes from, which is this signal.
fn kind_feed(
    netlist: &Netlist,
    drivers: &[SignalDriver],
    signal: usize,
    i: usize,
    cell: &Cell,
) -> Feed
    requires drivers { AreDrivers netlist.now drivers.now }
    requires signal { signal < length netlist.now.names }
    requires formed { IsFormedCell (length netlist.now.names) cell.now }
    ensures { result ≡ kind_feed netlist.now signal i cell.now.kind cell.now.ins }
{
    let signals = netlist.signals();
    let ins = cell.ins.as_slice();
    let out = signal as u32;
    match cell.kind {
        CellKind::Lut { table } => Feed::Made(gate(signals, table, ins, out)),
        CellKind::Cover { table, .. } => Feed::Made(gate(signals, table, ins, out)),
        CellKind::Carry => Feed::Made(gate(signals, MAJORITY, ins, out)),
        CellKind::Flop { .. } => Feed::Kept(i),
        CellKind::PadCell { .. } => pin_feed(netlist, drivers, ins),
        CellKind::Global => Feed::Made(gate(signals, FIRST, ins, out)),
    }
}

/// Where the level of a signal comes from.
pub(crate) fn feed(netlist: &Netlist, drivers: &[SignalDriver], signal: usize) -> Feed
    requires drivers { AreDrivers netlist.now drivers.now }
    requires signal { signal < length netlist.now.names }
    ensures { result ≡ feed_of netlist.now signal }
{
    match drivers[signal] {
        SignalDriver::Nothing => Feed::Nothing,
        SignalDriver::Pad(port) => Feed::Port(port),
        SignalDriver::Output(i) => match netlist.cells().get(i) {
            None => Feed::Nothing,
            Some(cell) => kind_feed(netlist, drivers, signal, i, cell),
        },
    }
}

// A port that drives nothing.
fn no_tap(signals: u32) -> Tap
    ensures { result ≡ no_tap signals }
{
    Tap {
        level: signals,
        enable: signals,
    }
}

// What a port without an SB_IO drives.
fn bare_tap(signals: u32, port: &Port) -> Tap
    requires { signals < 2 ^ 30 }
    ensures { result ≡ bare_tap signals port.now.way port.now.signal.0 }
{
    match port.way {
        Way::Output => Tap {
            level: port.signal.0,
            enable: signals + 1,
        },
        Way::Input | Way::Both => no_tap(signals),
    }
}

// What a port at an SB_IO of a type drives.
fn pad_tap(signals: u32, pin_type: u8, ins: &[Option<SignalNo>]) -> Tap
    requires { signals < 2 ^ 30 }
    ensures { result ≡ pad_tap signals pin_type ins.now }
{
    if pin_type == OUTPUT {
        return Tap {
            level: slot_at(signals, ins, 1),
            enable: signals + 1,
        };
    }
    if pin_type == ENABLED {
        return Tap {
            level: slot_at(signals, ins, 1),
            enable: slot_at(signals, ins, 2),
        };
    }
    no_tap(signals)
}

// What a port at a cell drives.
fn kind_tap(signals: u32, cell: &Cell) -> Tap
    requires { signals < 2 ^ 30 }
    ensures { result ≡ kind_tap signals cell.now.kind cell.now.ins }
{
    match cell.kind {
        CellKind::PadCell { pin_type, .. } => pad_tap(signals, pin_type, cell.ins.as_slice()),
        _ => no_tap(signals),
    }
}

/// What a port drives.
pub(crate) fn tap(netlist: &Netlist, buffers: &[Option<usize>], port: &Port) -> Tap
    requires buffers { ArePlaces (length netlist.now.names)
        (map pin_of netlist.now.cells) buffers.now }
    requires port { port.now.signal.0 < length netlist.now.names }
    ensures { result ≡ tap_of netlist.now port.now }
{
    let signals = netlist.signals();
    match buffers[port.signal.0 as usize] {
        None => bare_tap(signals, port),
        Some(i) => match netlist.cells().get(i) {
            None => no_tap(signals),
            Some(cell) => kind_tap(signals, cell),
        },
    }
}

// The slot of a flip-flop's enable.
fn enable_slot(signals: u32, enable: bool, ins: &[Option<SignalNo>]) -> u32
    requires { signals < 2 ^ 30 }
    ensures { result ≡ enable_slot signals enable ins.now }
{
    if enable {
        slot_at(signals + 1, ins, 2)
    } else {
        signals + 1
    }
}

// The slot of a flip-flop's set or reset.
fn set_slot(signals: u32, enable: bool, ins: &[Option<SignalNo>]) -> u32
    ensures { result ≡ set_slot signals enable ins.now }
{
    if enable {
        slot_at(signals, ins, 3)
    } else {
        slot_at(signals, ins, 2)
    }
}

/// Adds the cell at a place, if it is a flip-flop.
pub(crate) fn add_keeper(
    keepers: &mut Vec<Keeper>,
    signals: u32,
    i: u32,
    cell: &Cell,
) -> Result<(), NoMemory>
    requires { signals < 2 ^ 30 }
    ensures { OnOk result
        (keepers.new.items ≡ keepers.old.items ++ keeper_at signals i cell.now.kind cell.now.ins) }
{
    let CellKind::Flop {
        falling,
        enable,
        reset,
    } = cell.kind
    else {
        return Ok(());
    };
    let ins = cell.ins.as_slice();
    keepers.push(Keeper {
        cell: i,
        clock: slot_at(signals, ins, 0),
        datum: slot_at(signals, ins, 1),
        enable: enable_slot(signals, enable, ins),
        set: set_slot(signals, enable, ins),
        falling,
        reset,
    })?;
    Ok(())
}

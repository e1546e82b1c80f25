//! Netlists, compiled.
ghost use Rattle.std.specs.Prelude.{◌≡◌, ◌<◌, ◌^◌, ◌++◌, [], length, map, OnOk, IfOk};
ghost use Rattle.ice_base_values.specs.Order.{IsOrder};
ghost use Rattle.ice_net.specs.Drivers.{pin_of};
ghost use Rattle.ice_net.specs.Meaning.{depends_on};
ghost use Rattle.ice_check.specs.Tables.{AreDrivers, ArePlaces};
ghost use Rattle.ice_sim_sweep.specs.Feeds.{port_in, kept_in, linked, gate_in, tap_of, keepers_of};
ghost use Rattle.ice_sim_sweep.specs.Plans.{IsWiring, IsPlan};

use crate::feeds::{add_keeper, feed, tap};
use crate::parts::{Feed, Gate, Keeper, Link, Tap};
use ice_base::NoMemory;
use ice_net::{Cell, Netlist, SignalDriver};
use std::alloc::Global;

/// What a netlist is compiled to.
#[derive(Drop)]
pub struct SweepPlan {
    /// The signals that have the levels of ports.
    pub pads: Vec<Link>,
    /// The signals that have what flip-flops keep.
    pub keeps: Vec<Link>,
    /// The tables that make the other signals, each behind those that make what it reads.
    pub gates: Vec<Gate>,
    /// What each port drives.
    pub taps: Vec<Tap>,
    /// The flip-flops.
    pub keepers: Vec<Keeper>,
}

/// Adds a signal to the part that it belongs to.
pub(crate) fn add(
    pads: &mut Vec<Link>,
    keeps: &mut Vec<Link>,
    gates: &mut Vec<Gate>,
    signal: usize,
    feed: Feed,
) -> Result<(), NoMemory>
    ensures pads { OnOk result (pads.new.items ≡ pads.old.items ++ linked signal (port_in feed)) }
    ensures keeps { OnOk result
        (keeps.new.items ≡ keeps.old.items ++ linked signal (kept_in feed)) }
    ensures gates { OnOk result (gates.new.items ≡ gates.old.items ++ gate_in feed) }
{
    match feed {
        Feed::Nothing => Ok(()),
        Feed::Port(port) => Ok(pads.push(Link {
            from: port,
            to: signal,
        })?),
        Feed::Kept(cell) => Ok(keeps.push(Link {
            from: cell,
            to: signal,
        })?),
        Feed::Made(gate) => Ok(gates.push(gate)?),
    }
}

// Adds all signals, in an order of evaluation.
fn wire(
    netlist: &Netlist,
    drivers: &[SignalDriver],
    order: &[usize],
    pads: &mut Vec<Link>,
    keeps: &mut Vec<Link>,
    gates: &mut Vec<Gate>,
) -> Result<(), NoMemory>
    requires drivers { AreDrivers netlist.now drivers.now }
    requires order { IsOrder (length netlist.now.names) (depends_on netlist.now) order.now }
    requires empty { IsWiring netlist.now [] pads.old.items keeps.old.items gates.old.items }
    ensures { OnOk result
        (IsWiring netlist.now order.now pads.new.items keeps.new.items gates.new.items) }
{
    for signal in order {
        let feed = feed(netlist, drivers, *signal);
        add(pads, keeps, gates, *signal, feed)?;
    }
    Ok(())
}

// What sets the signals of a netlist, in an order of evaluation.
#[derive(Drop)]
struct Wiring {
    // The signals that ports feed.
    pads: Vec<Link>,
    // The signals that flip-flops feed.
    keeps: Vec<Link>,
    // The signals that tables make.
    gates: Vec<Gate>,
}

// The wiring of a netlist.
fn wiring_of(
    alloc: Global,
    netlist: &Netlist,
    drivers: &[SignalDriver],
    order: &[usize],
) -> Result<Wiring, NoMemory>
    requires drivers { AreDrivers netlist.now drivers.now }
    requires order { IsOrder (length netlist.now.names) (depends_on netlist.now) order.now }
    ensures { IfOk result (λ wiring.
        IsWiring netlist.now order.now wiring.pads.items wiring.keeps.items wiring.gates.items) }
{
    let mut pads = Vec::new(alloc);
    let mut keeps = Vec::new(alloc);
    let mut gates = Vec::new(alloc);
    wire(netlist, drivers, order, &mut pads, &mut keeps, &mut gates)?;
    Ok(Wiring { pads, keeps, gates })
}

// What each port drives.
fn taps(alloc: Global, netlist: &Netlist, buffers: &[Option<usize>]) -> Result<Vec<Tap>, NoMemory>
    requires { ArePlaces (length netlist.now.names) (map pin_of netlist.now.cells) buffers.now }
    ensures { IfOk result (λ taps. taps.items ≡ map (tap_of netlist.now) netlist.now.ports) }
{
    let mut taps = Vec::new(alloc);
    for port in netlist.ports() {
        taps.push(tap(netlist, buffers, port))?;
    }
    Ok(taps)
}

// The flip-flops among the cells of a netlist of so many signals.
fn keepers(alloc: Global, signals: u32, cells: &[Cell]) -> Result<Vec<Keeper>, NoMemory>
    requires signals { signals < 2 ^ 30 }
    requires cells { length cells.now < 2 ^ 30 }
    ensures { IfOk result (λ keepers. keepers.items ≡ keepers_of signals 0 cells.now) }
{
    let mut keepers = Vec::new(alloc);
    for (i, cell) in cells.iter().enumerate() {
        add_keeper(&mut keepers, signals, i as u32, cell)?;
    }
    Ok(keepers)
}

/// Compiles a netlist, of which are given what drives each signal, the place of the first SB_IO at each, and an order of
/// evaluation of the signals.
pub(crate) fn compile(
    alloc: Global,
    netlist: &Netlist,
    drivers: &[SignalDriver],
    buffers: &[Option<usize>],
    order: &[usize],
) -> Result<SweepPlan, NoMemory>
    requires drivers { AreDrivers netlist.now drivers.now }
    requires buffers { ArePlaces (length netlist.now.names)
        (map pin_of netlist.now.cells) buffers.now }
    requires order { IsOrder (length netlist.now.names) (depends_on netlist.now) order.now }
    ensures { IfOk result (IsPlan netlist.now) }
{
    let wiring = wiring_of(alloc, netlist, drivers, order)?;
    let taps = taps(alloc, netlist, buffers)?;
    let keepers = keepers(alloc, netlist.signals(), netlist.cells())?;
    Ok(SweepPlan {
        pads: wiring.pads,
        keeps: wiring.keeps,
        gates: wiring.gates,
        taps,
        keepers,
    })
}

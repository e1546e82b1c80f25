//! The search for loops: signals that depend on one another in a circle.
ghost use Rattle.std.specs.Prelude.{◌≡◌, ◌++◌, length, map, IfOk, OnOk};
ghost use Rattle.ice_base_values.specs.System.{present};
ghost use Rattle.ice_net.specs.Drivers.{numbers};
ghost use Rattle.ice_net.specs.Formed.{IsFormed};
ghost use Rattle.ice_net.specs.Meaning.{reads_by, reads, depends_on};
ghost use Rattle.ice_check.specs.Tables.{AreDrivers};
ghost use Rattle.ice_check.specs.Loops.{IsGraphOf, IsSearched};

use ice_base::{NoMemory, SignalNo};
use ice_base_values::{Graph, Outcome, from_least, order};
use ice_net::{CellKind, Netlist, SignalDriver};
use std::alloc::Global;

// Puts the numbers of the signals that are there behind a row.
fn push_present(signals: &[Option<SignalNo>], row: &mut Vec<usize>) -> Result<(), NoMemory>
    ensures { OnOk result (row.new.items ≡ row.old.items ++ present (numbers signals.now)) }
{
    for signal in signals {
        if let Some(signal) = signal {
            row.push(signal.0 as usize)?;
        }
    }
    Ok(())
}

// Makes a row the signals that the output of a cell depends on.
pub(crate) fn read_by(
    kind: CellKind,
    ins: &[Option<SignalNo>],
    row: &mut Vec<usize>,
) -> Result<(), NoMemory>
    ensures { OnOk result (row.new.items ≡ present (numbers (reads_by kind ins.now))) }
{
    row.clear();
    match kind {
        CellKind::Flop { .. } | CellKind::PadCell { .. } => Ok(()),
        _ => push_present(ins, row),
    }
}

// Makes a row the signals that a driver depends on.
fn read_by_driver(
    netlist: &Netlist,
    driver: SignalDriver,
    row: &mut Vec<usize>,
) -> Result<(), NoMemory>
    ensures { OnOk result (row.new.items ≡ present (reads netlist.now driver)) }
{
    row.clear();
    let SignalDriver::Output(place) = driver else {
        return Ok(());
    };
    let Some(cell) = netlist.cells().get(place) else {
        return Ok(());
    };
    read_by(cell.kind, cell.ins.as_slice(), row)
}

// The signals with what each depends on.
fn graph_of_signals(
    alloc: Global,
    netlist: &Netlist,
    drivers: &[SignalDriver],
) -> Result<Graph, NoMemory>
    requires formed { IsFormed netlist.now }
    requires drivers { AreDrivers netlist.now drivers.now }
    ensures { IfOk result (IsGraphOf (length netlist.now.names) (depends_on netlist.now)) }
{
    let mut graph = Graph::new(alloc);
    let mut row = Vec::new(alloc);
    for driver in drivers {
        read_by_driver(netlist, *driver, &mut row)?;
        graph.push(&row)?;
    }
    Ok(graph)
}

// An order of evaluation of all signals, or else a loop.
pub(crate) fn search_signals(
    alloc: Global,
    netlist: &Netlist,
    drivers: &[SignalDriver],
) -> Result<Outcome, NoMemory>
    requires formed { IsFormed netlist.now }
    requires drivers { AreDrivers netlist.now drivers.now }
    ensures { IfOk result (IsSearched netlist.now) }
{
    let graph = graph_of_signals(alloc, netlist, drivers)?;
    match order(alloc, &graph)? {
        Outcome::Order(order) => Ok(Outcome::Order(order)),
        Outcome::Cycle(cycle) => {
            let signals = from_least(alloc, &cycle)?;
            Ok(Outcome::Cycle(signals))
        }
    }
}

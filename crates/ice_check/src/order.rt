//! The order in which the cells of a netlist are evaluated.
ghost use Rattle.std.specs.Prelude.{◌≡◌, ◌++◌, ◌<◌, ◌^◌, length, slice_index_or, All, IfOk, OnOk};
ghost use Rattle.ice_base_values.specs.Order.{IsOrder};
ghost use Rattle.ice_net.specs.Formed.{IsFormed};
ghost use Rattle.ice_check.specs.Tables.{AreDrivers};
ghost use Rattle.ice_check.specs.Loops.{IsGraphOf, HasOrder, cell_by, cells_at, cells_before};

use crate::loops::read_by;
use ice_base::NoMemory;
use ice_base_values::{Graph, Outcome, order};
use ice_net::{Netlist, SignalDriver};
use std::alloc::Global;

// The cell that drives a signal, if one does.
fn cell_at(drivers: &[SignalDriver], signal: usize) -> Option<usize>
    ensures { result ≡ cell_by (slice_index_or drivers.now signal SignalDriver.Nothing) }
{
    match drivers.get(signal) {
        Some(SignalDriver::Output(cell)) => Some(*cell),
        _ => None,
    }
}

// Puts the cells that drive some signals behind a row.
fn push_cells(
    drivers: &[SignalDriver],
    signals: &[usize],
    row: &mut Vec<usize>,
) -> Result<(), NoMemory>
    ensures { OnOk result (row.new.items ≡ row.old.items
        ++ cells_at (λ s. slice_index_or drivers.now s SignalDriver.Nothing) signals.now) }
{
    for &signal in signals {
        if let Some(cell) = cell_at(drivers, signal) {
            row.push(cell)?;
        }
    }
    Ok(())
}

// The cells with what each depends on.
fn graph_of_cells(
    alloc: Global,
    netlist: &Netlist,
    drivers: &[SignalDriver],
) -> Result<Graph, NoMemory>
    requires { AreDrivers netlist.now drivers.now }
    ensures graph { IfOk result (IsGraphOf (length netlist.now.cells) (cells_before netlist.now)) }
    ensures formed { IsFormed netlist.now }
{
    let mut graph = Graph::new(alloc);
    let mut signals = Vec::new(alloc);
    let mut row = Vec::new(alloc);
    let cells = netlist.cells();
    for cell in cells {
        read_by(cell.kind, cell.ins.as_slice(), &mut signals)?;
        row.clear();
        push_cells(drivers, &signals, &mut row)?;
        graph.push(&row)?;
    }
    Ok(graph)
}

// The numbers of cells in as many bits as they need.
fn narrowed(alloc: Global, points: &[usize]) -> Result<Vec<u32>, NoMemory>
    requires { All (λ point. point < 2 ^ 32) points.now }
    ensures { IfOk result (λ numbers. numbers.items ≡ points.now) }
{
    let mut numbers = Vec::with_capacity(alloc, points.len())?;
    for &point in points {
        numbers.push(point as u32)?;
    }
    Ok(numbers)
}

// An order of evaluation of all cells. Where the signals have one, the cells have one too.
pub(crate) fn order_of_cells(
    alloc: Global,
    netlist: &Netlist,
    drivers: &[SignalDriver],
) -> Result<Vec<u32>, NoMemory>
    requires drivers { AreDrivers netlist.now drivers.now }
    requires signals { HasOrder netlist.now }
    ensures { IfOk result (λ order.
        IsOrder (length netlist.now.cells) (cells_before netlist.now) order.items) }
{
    let graph = graph_of_cells(alloc, netlist, drivers)?;
    match order(alloc, &graph)? {
        Outcome::Order(order) => {
            let order = narrowed(alloc, &order)?;
            Ok(order)
        }
        Outcome::Cycle(_) => unreachable!(),
    }
}

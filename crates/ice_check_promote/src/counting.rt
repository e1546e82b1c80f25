//! How many flip-flops each signal is the clock of, and which signals need no buffer.
ghost use Rattle.std.specs.Prelude.{◌≡◌, None, length, map, slice_index_or, IfOk};
ghost use Rattle.ice_check.specs.Tables.{AreTimes};
ghost use Rattle.ice_check_promote.specs.Filling.{AreCounts};
ghost use Rattle.ice_check_promote.specs.Promoted.{clock_of, is_settled, settled_of};

use ice_base::{NoMemory, SignalNo};
use ice_check::times_of;
use ice_net::{Cell, CellKind, Netlist};
use std::alloc::Global;

/// Counts of cells, by the number of a signal.
#[derive(Drop)]
pub struct Counts {
    /// The flip-flops that have the signal as their clock.
    pub clocks: Vec<usize>,
    /// The cells that drive the signal and whose output needs no buffer.
    pub settled: Vec<usize>,
}

// The signal at the first place; None where there is none.
fn first_of(signals: &[Option<SignalNo>]) -> Option<SignalNo>
    ensures { result ≡ slice_index_or signals.now 0 None }
{
    match signals.get(0) {
        Some(signal) => *signal,
        None => None,
    }
}

// The signal at the clock input of a flip-flop.
fn clock_of(cell: &Cell) -> Option<SignalNo>
    ensures { result ≡ clock_of cell.now }
{
    match cell.kind {
        CellKind::Flop { .. } => first_of(cell.ins.as_slice()),
        _ => None,
    }
}

// Whether the output of a cell needs no buffer: it is a global network already, or it never changes.
fn is_settled(kind: CellKind) -> bool
    ensures { result ≡ is_settled kind }
{
    match kind {
        CellKind::Cover { width, .. } => width == 0,
        CellKind::Global => true,
        _ => false,
    }
}

// The output of a cell, where it needs no buffer.
fn settled_of(cell: &Cell) -> Option<SignalNo>
    ensures { result ≡ settled_of cell.now }
{
    if is_settled(cell.kind) {
        return first_of(cell.outs.as_slice());
    }
    None
}

// The clocks, cell by cell.
fn clocks(alloc: Global, cells: &[Cell]) -> Result<Vec<Option<SignalNo>>, NoMemory>
    ensures { IfOk result (λ list. list.items ≡ map clock_of cells.now) }
{
    let mut list = Vec::new(alloc);
    for cell in cells {
        list.push(clock_of(cell))?;
    }
    Ok(list)
}

// The outputs that need no buffer, cell by cell.
fn settled(alloc: Global, cells: &[Cell]) -> Result<Vec<Option<SignalNo>>, NoMemory>
    ensures { IfOk result (λ list. list.items ≡ map settled_of cells.now) }
{
    let mut list = Vec::new(alloc);
    for cell in cells {
        list.push(settled_of(cell))?;
    }
    Ok(list)
}

// How many flip-flops have each signal as their clock.
#[tactic(auto, using(crate::proofs::Counted::clocks_below))]
fn clock_counts(alloc: Global, netlist: &Netlist) -> Result<Vec<usize>, NoMemory>
    ensures { IfOk result (λ table.
        AreTimes (length netlist.now.names) (map clock_of netlist.now.cells) table.items) }
{
    let list = clocks(alloc, netlist.cells())?;
    let table = times_of(alloc, netlist.signals() as usize, &list)?;
    Ok(table)
}

// How many cells whose output needs no buffer drive each signal.
#[tactic(auto, using(crate::proofs::Counted::settled_below))]
fn settled_counts(alloc: Global, netlist: &Netlist) -> Result<Vec<usize>, NoMemory>
    ensures { IfOk result (λ table.
        AreTimes (length netlist.now.names) (map settled_of netlist.now.cells) table.items) }
{
    let list = settled(alloc, netlist.cells())?;
    let table = times_of(alloc, netlist.signals() as usize, &list)?;
    Ok(table)
}

/// The counts of the cells of a netlist.
///
/// # Errors
/// Want of memory alone.
pub(crate) fn counts_of(alloc: Global, netlist: &Netlist) -> Result<Counts, NoMemory>
    ensures { IfOk result (λ counts. AreCounts netlist.now counts) }
{
    let clocks = clock_counts(alloc, netlist)?;
    let settled = settled_counts(alloc, netlist)?;
    Ok(Counts { clocks, settled })
}

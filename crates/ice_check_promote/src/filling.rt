//! The netlist with buffers, made name by name, port by port and cell by cell.
ghost use Rattle.std.specs.Prelude.{◌≡◌, ◌==◌, ◌++◌, ◌+◌, ◌<◌, ◌≤◌, ◌^◌, [], All, length, map, slice_index_or, bytes_eq, IfOk, OnOk};
ghost use Rattle.std.specs.List.{IsDistinct};
ghost use Rattle.ice_net.specs.Formed.{IsFormed, IsSingle, IsFormedCell, IsPortBelow, port_numbers};
ghost use Rattle.ice_net_additions.specs.Adding.{with_names, HasRoomForNames, with_cells, HasRoomForCells};
ghost use Rattle.ice_check_promote.specs.Filling.{AreTargets, buffer_names, clocked_cell, filled, CanTakeBuffers};
ghost use Rattle.ice_check_promote.specs.Promoted.{buffered_name, buffer, buffers, with_buffers};

use crate::targets::Targets;
use ice_base::{NoMemory, SignalNo};
use ice_net::{Cell, CellKind, Netlist, Port, Signals};
use std::alloc::Global;

// ---- names
// A netlist with the names of another, and nothing else.
fn with_its_names(alloc: Global, netlist: &Netlist) -> Result<Netlist, NoMemory>
    requires formed { IsFormed netlist.now }
    requires once { IsDistinct bytes_eq netlist.now.names }
    ensures { IfOk result (λ made.
        made ≡ record { names = netlist.now.names; ports = []; cells = [] }) }
{
    let mut made = Netlist::new(alloc);
    for signal in 0..netlist.signals() {
        made.signal(netlist.name(SignalNo(signal)))?;
    }
    Ok(made)
}

// The name of the signal of a clock's buffer.
fn buffered_name(alloc: Global, name: &[u8]) -> Result<Vec<u8>, NoMemory>
    ensures { IfOk result (λ made. made.items ≡ buffered_name name.now) }
{
    let mut made = Vec::from_slice(alloc, name)?;
    made.extend_from_slice(b" gb")?;
    Ok(made)
}

// Adds the names of the signals of the clocks' buffers.
#[tactic(auto, using(ice_net_additions::proofs::Added::names_none, ice_net_additions::proofs::Added::names_all, ice_net_additions::proofs::Added::names_more, ice_net_additions::proofs::Added::names_room))]
fn add_buffer_names(
    alloc: Global,
    made: &mut Netlist,
    netlist: &Netlist,
    clocks: &[u32],
) -> Result<(), NoMemory>
    requires below { All (λ clock. clock < length netlist.now.names) clocks.now }
    requires room { HasRoomForNames made.old (buffer_names netlist.now clocks.now) }
    ensures { OnOk result (made.new ≡ with_names made.old (buffer_names netlist.now clocks.now)) }
{
    for clock in clocks {
        let name = buffered_name(alloc, netlist.name(SignalNo(*clock)))?;
        made.signal(&name)?;
    }
    Ok(())
}

// ---- ports
// Adds these ports, where there is none yet.
#[tactic(auto, using(crate::proofs::Filled::ports_none, crate::proofs::Filled::ports_all, crate::proofs::Filled::ports_more))]
fn add_ports(made: &mut Netlist, ports: &[Port]) -> Result<(), NoMemory>
    requires none { made.old.ports ≡ [] }
    requires below { All (IsPortBelow (length made.old.names)) ports.now }
    requires once { IsDistinct ◌==◌ (port_numbers ports.now) }
    ensures { OnOk result (made.new ≡ record made.old { ports = ports.now }) }
{
    for port in ports {
        made.port(port.signal, port.way)?;
    }
    Ok(())
}

// ---- cells
// Adds these cells, of which the clock inputs read the buffers' signals.
#[tactic(auto, using(ice_net_additions::proofs::Added::cells_none, ice_net_additions::proofs::Added::cells_all, ice_net_additions::proofs::Added::cells_more, ice_net_additions::proofs::Added::cells_room, ice_net_additions::proofs::Added::cells_formed, crate::proofs::Filled::cell_made, crate::proofs::Filled::cells_long))]
fn add_cells(
    alloc: Global,
    made: &mut Netlist,
    targets: &Targets,
    outer: &[SignalNo],
    cells: &[Cell],
) -> Result<(), NoMemory>
    requires targets { AreTargets targets.now }
    requires formed { All (IsFormedCell targets.now.count) cells.now }
    requires room { HasRoomForCells made.old
        (map (clocked_cell targets.now.count targets.now.clocks.items outer.now) cells.now) }
    ensures { OnOk result (made.new ≡ with_cells made.old
        (map (clocked_cell targets.now.count targets.now.clocks.items outer.now) cells.now)) }
{
    for cell in cells {
        made.cell(targets.cell(alloc, outer, cell)?)?;
    }
    Ok(())
}

// The buffer of a clock, which drives this signal.
fn buffer(alloc: Global, clock: u32, out: u32) -> Result<Cell, NoMemory>
    ensures { IfOk result (λ made. made ≡ buffer clock out) }
{
    let ins = vec![in alloc; Some(SignalNo(clock))]?;
    let outs = vec![in alloc; Some(SignalNo(out))]?;
    Ok(Cell {
        kind: CellKind::Global,
        line: 0,
        ins: Signals::from_vec(ins),
        outs: Signals::from_vec(outs),
    })
}

// Adds the buffers of these clocks, the first of which drives the signal of that number.
#[tactic(auto, using(ice_net_additions::proofs::Added::cells_none, ice_net_additions::proofs::Added::cells_all, ice_net_additions::proofs::Added::cells_more, ice_net_additions::proofs::Added::cells_room, ice_net_additions::proofs::Added::cells_formed, crate::proofs::Filled::buffer_made, crate::proofs::Filled::buffers_long))]
fn add_buffers(
    alloc: Global,
    made: &mut Netlist,
    count: u32,
    clocks: &[u32],
) -> Result<(), NoMemory>
    requires few { count + length clocks.now < 2 ^ 32 }
    requires room { HasRoomForCells made.old (buffers count clocks.now) }
    ensures { OnOk result (made.new ≡ with_cells made.old (buffers count clocks.now)) }
{
    for (place, clock) in clocks.iter().enumerate() {
        made.cell(buffer(alloc, *clock, count + place as u32)?)?;
    }
    Ok(())
}

// ---- the whole
// The netlist with buffers for these clocks, but without cells.
fn with_ports(
    alloc: Global,
    netlist: &Netlist,
    outer: &[SignalNo],
    clocks: &[u32],
) -> Result<Netlist, NoMemory>
    requires { CanTakeBuffers netlist.now outer.now clocks.now }
    ensures { IfOk result (λ made.
        made ≡ record (with_buffers netlist.now clocks.now) { cells = [] }) }
{
    let mut made = with_its_names(alloc, netlist)?;
    add_buffer_names(alloc, &mut made, netlist, clocks)?;
    add_ports(&mut made, netlist.ports())?;
    Ok(made)
}

/// The netlist with a buffer for each of these clocks, which flip-flops read, and covers that pass the clock on to an outer clock. Each
/// name, port and cell is passed once.
///
/// # Errors
/// Want of memory alone.
pub(crate) fn with_buffers(
    alloc: Global,
    netlist: &Netlist,
    outer: &[SignalNo],
    clocks: Vec<u32>,
) -> Result<Netlist, NoMemory>
    requires { CanTakeBuffers netlist.now outer.now clocks.items }
    ensures { IfOk result (λ made. made ≡ filled netlist.now outer.now clocks.items) }
{
    let mut made = with_ports(alloc, netlist, outer, &clocks)?;
    let targets = Targets::new(alloc, netlist.signals(), clocks)?;
    add_cells(alloc, &mut made, &targets, outer, netlist.cells())?;
    add_buffers(alloc, &mut made, targets.count, &targets.clocks)?;
    Ok(made)
}

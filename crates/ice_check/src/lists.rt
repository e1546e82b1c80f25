//! The signals of a netlist at pads, at outputs and at the PACKAGE_PINs of SB_IO cells, as lists.
ghost use Rattle.std.specs.Prelude.{◌≡◌, ◌<◌, length, map, None, IfOk};
ghost use Rattle.ice_net.specs.Drivers.{pin_of, pad_by, pad_of, output_of, pad_signals};
ghost use Rattle.ice_check.specs.Tables.{ArePlaces};

use ice_base::{NoMemory, SignalNo};
use ice_net::{Cell, CellKind, Netlist, Port, Way, signal_at};
use std::alloc::Global;

// The signal at the PACKAGE_PIN of an SB_IO.
pub(crate) fn pin_of(cell: &Cell) -> Option<SignalNo>
    ensures { result ≡ pin_of cell.now }
{
    match cell.kind {
        CellKind::PadCell { .. } => signal_at(cell.ins.as_slice(), 0),
        _ => None,
    }
}

// The signal that a cell drives.
fn output_of(cell: &Cell) -> Option<SignalNo>
    ensures { result ≡ output_of cell.now }
{
    signal_at(cell.outs.as_slice(), 0)
}

// The signal that the pad of a port drives, by whether the port is at an SB_IO.
fn pad_by(port: Port, buffered: bool) -> Option<SignalNo>
    ensures { result ≡ pad_by port buffered port.way }
{
    match port.way {
        Way::Input | Way::Both => Some(port.signal),
        Way::Output if buffered => Some(port.signal),
        Way::Output => None,
    }
}

// The signals at the PACKAGE_PINs, cell by cell.
pub(crate) fn pins(alloc: Global, cells: &[Cell]) -> Result<Vec<Option<SignalNo>>, NoMemory>
    ensures { IfOk result (λ list. list.items ≡ map pin_of cells.now) }
{
    let mut list = Vec::new(alloc);
    for cell in cells {
        list.push(pin_of(cell))?;
    }
    Ok(list)
}

// The signals that outputs drive, cell by cell.
pub(crate) fn outputs(alloc: Global, cells: &[Cell]) -> Result<Vec<Option<SignalNo>>, NoMemory>
    ensures { IfOk result (λ list. list.items ≡ map output_of cells.now) }
{
    let mut list = Vec::new(alloc);
    for cell in cells {
        list.push(output_of(cell))?;
    }
    Ok(list)
}

// The signal that the pad of a port drives, by the first SB_IO at each signal.
fn pad_of(netlist: &Netlist, buffers: &[Option<usize>], port: Port) -> Option<SignalNo>
    requires buffers { ArePlaces (length netlist.now.names)
        (map pin_of netlist.now.cells) buffers.now }
    requires within { port.signal.0 < length netlist.now.names }
    ensures { result ≡ pad_of netlist.now.cells port }
{
    pad_by(port, buffers[port.signal.0 as usize].is_some())
}

// The signals that pads drive, port by port.
pub(crate) fn pads(
    alloc: Global,
    netlist: &Netlist,
    buffers: &[Option<usize>],
) -> Result<Vec<Option<SignalNo>>, NoMemory>
    requires { ArePlaces (length netlist.now.names) (map pin_of netlist.now.cells) buffers.now }
    ensures { IfOk result (λ list. list.items ≡ pad_signals netlist.now) }
{
    let mut list = Vec::new(alloc);
    for port in netlist.ports() {
        list.push(pad_of(netlist, buffers, *port))?;
    }
    Ok(list)
}

//! The pads of ports.
ghost use Rattle.std.specs.Prelude.{◌≡◌, None, length, map, slice_index_or, IfOk};
ghost use Rattle.ice_net.specs.Uses.{pad_uses};
ghost use Rattle.ice_net.specs.Drivers.{pin_of};
ghost use Rattle.ice_check.specs.Tables.{ArePlaces};
ghost use Rattle.ice_cells.specs.Packed.{bare_drive, bare_type, bare_pad, buffered_pad, pad_by, pads_from};
ghost use Rattle.ice_pack_sinks.specs.Plans.{plan};
ghost use Rattle.ice_pack.specs.Buffered.{pads_by};

use ice_base::{NoMemory, SignalNo, to_u32};
use ice_cells::{DesignPad, Root};
use ice_net::{Cell, CellKind, Netlist, Port, Way, signal_at};
use ice_pack_sinks::{Slices, sink};
use std::alloc::Global;

// What the pad of a port without an SB_IO is driven with.
fn bare_drive(slices: &Slices<'_>, way: Way, signal: SignalNo) -> Option<Root>
    ensures { result ≡ bare_drive (plan slices.now) way signal }
{
    match way {
        Way::Output => sink(slices, Some(signal)),
        Way::Input | Way::Both => None,
    }
}

// The type of the pad of a port without an SB_IO.
fn bare_type(way: Way) -> u8
    ensures { result ≡ bare_type way }
{
    match way {
        Way::Output => 25,
        Way::Input | Way::Both => 1,
    }
}

// The pad of a port without an SB_IO.
fn bare_pad(slices: &Slices<'_>, k: u32, port: Port) -> DesignPad
    ensures { result ≡ bare_pad (plan slices.now) k port }
{
    DesignPad {
        port: k,
        pin_type: bare_type(port.way),
        pullup: false,
        drive: bare_drive(slices, port.way, port.signal),
        enable: None,
        reads: false,
    }
}

// The input with which an SB_IO of a type drives its pad.
fn data_use(pin_type: u8, ins: &[Option<SignalNo>]) -> Option<SignalNo>
    ensures { result ≡ slice_index_or (pad_uses pin_type ins.now) 0 None }
{
    if pin_type == 25 {
        return signal_at(ins, 1);
    }
    if pin_type == 41 {
        return signal_at(ins, 1);
    }
    None
}

// The input by which an SB_IO of a type enables its pad.
fn enable_use(pin_type: u8, ins: &[Option<SignalNo>]) -> Option<SignalNo>
    ensures { result ≡ slice_index_or (pad_uses pin_type ins.now) 1 None }
{
    if pin_type == 25 {
        return None;
    }
    if pin_type == 41 {
        return signal_at(ins, 2);
    }
    None
}

// The pad of a port at an SB_IO, by the kind of that.
fn buffered_pad(
    slices: &Slices<'_>,
    k: u32,
    port: Port,
    ins: &[Option<SignalNo>],
    kind: CellKind,
) -> DesignPad
    ensures { result ≡ buffered_pad (plan slices.now) k port ins.now kind }
{
    match kind {
        CellKind::PadCell { pin_type, pullup } => DesignPad {
            port: k,
            pin_type,
            pullup,
            drive: sink(slices, data_use(pin_type, ins)),
            enable: sink(slices, enable_use(pin_type, ins)),
            reads: false,
        },
        _ => bare_pad(slices, k, port),
    }
}

// The pad of a port, by the place of its first SB_IO, if it has one.
fn pad_by(
    slices: &Slices<'_>,
    cells: &[Cell],
    k: u32,
    port: Port,
    buffer: Option<usize>,
) -> DesignPad
    ensures { result ≡ pad_by (plan slices.now) cells.now k port buffer }
{
    let Some(i) = buffer else {
        return bare_pad(slices, k, port);
    };
    match cells.get(i) {
        Some(cell) => buffered_pad(slices, k, port, cell.ins.as_slice(), cell.kind),
        None => bare_pad(slices, k, port),
    }
}

// The place of the first SB_IO at a signal.
fn buffer_of(buffers: &[Option<usize>], signal: SignalNo) -> Option<usize>
    ensures { result ≡ slice_index_or buffers.now signal.0 None }
{
    let s = signal.0 as usize;
    if s < buffers.len() { buffers[s] } else { None }
}

// The pads of ports, by a table of the place of the first SB_IO at each signal.
fn pads_by(
    alloc: Global,
    slices: &Slices<'_>,
    cells: &[Cell],
    buffers: &[Option<usize>],
    ports: &[Port],
) -> Result<Vec<DesignPad>, NoMemory>
    ensures { IfOk result (λ pads.
        pads.items ≡ pads_by (plan slices.now) cells.now buffers.now 0 ports.now) }
{
    let mut pads = Vec::new(alloc);
    for (k, port) in ports.iter().enumerate() {
        let buffer = buffer_of(buffers, port.signal);
        pads.push(pad_by(slices, cells, to_u32(k)?, *port, buffer))?;
    }
    Ok(pads)
}

// The pads of all ports of a netlist, with a table of the place of the first SB_IO at each of its signals.
#[tactic(auto, using(crate::proofs::Padding::pads_are))]
pub(crate) fn pads_from(
    alloc: Global,
    slices: &Slices<'_>,
    netlist: &Netlist,
    buffers: &[Option<usize>],
) -> Result<Vec<DesignPad>, NoMemory>
    requires { ArePlaces (length netlist.now.names) (map pin_of netlist.now.cells) buffers.now }
    ensures { IfOk result (λ pads.
        pads.items ≡ pads_from (plan slices.now) netlist.now.cells 0 netlist.now.ports) }
{
    let pads = pads_by(alloc, slices, netlist.cells(), buffers, netlist.ports())?;
    Ok(pads)
}

//! Covers that join the ports of RAMs to signals.
ghost use Rattle.std.specs.Prelude.{◌≡◌, ◌<◌, ◌≤◌, length, IfOk};
ghost use Rattle.ice_ram_read.specs.ClosedNetlists.{cover, never, passed, product, is_one_cell, is_one, input_cover, enable_cover, output_cover, signal_at, port_cover};

use crate::ram_text::RamText;
use ice_base::{NoMemory, SignalNo};
use ice_net::{Cell, CellKind, Netlist, Signals};
use std::alloc::Global;

/// Tables of covers: the level of the one input, and the product of two.
const PASSED: u16 = 0b10;

const PRODUCT: u16 = 0b1000;

// A cover with this table.
fn cover(
    alloc: Global,
    line: u32,
    table: u16,
    ins: &[Option<SignalNo>],
    out: SignalNo,
) -> Result<Cell, NoMemory>
    requires { length ins.now ≤ 4 }
    ensures { IfOk result (λ cell. cell ≡ cover line table ins.now out) }
{
    let width = ins.len() as u8;
    let ins = Vec::from_slice(alloc, ins)?;
    let outs = Vec::from_slice(alloc, &[Some(out)])?;
    Ok(Cell {
        kind: CellKind::Cover { table, width },
        line,
        ins: Signals::from_vec(ins),
        outs: Signals::from_vec(outs),
    })
}

// The cover that gives 0.
fn never(alloc: Global, line: u32, out: SignalNo) -> Result<Cell, NoMemory>
    ensures { IfOk result (λ cell. cell ≡ never line out) }
{
    cover(alloc, line, 0, &[], out)
}

// The cover that gives the level of a signal.
fn passed(alloc: Global, line: u32, signal: SignalNo, out: SignalNo) -> Result<Cell, NoMemory>
    ensures { IfOk result (λ cell. cell ≡ passed line signal out) }
{
    cover(alloc, line, PASSED, &[Some(signal)], out)
}

// The cover that gives the product of two signals.
fn product(
    alloc: Global,
    line: u32,
    first: SignalNo,
    second: SignalNo,
    out: SignalNo,
) -> Result<Cell, NoMemory>
    ensures { IfOk result (λ cell. cell ≡ product line first second out) }
{
    cover(alloc, line, PRODUCT, &[Some(first), Some(second)], out)
}

// Whether a cell is a cover that gives 1, and drives the signal.
fn is_one_cell(signal: SignalNo, cell: &Cell) -> bool
    ensures { result ≡ is_one_cell signal cell.now }
{
    let CellKind::Cover { table, width } = cell.kind else {
        return false;
    };
    let Some(Some(out)) = cell.outs.as_slice().get(0) else {
        return false;
    };
    table == 1 && width == 0 && out.0 == signal.0
}

// Whether a cover gives the signal 1.
fn is_one(netlist: &Netlist, signal: SignalNo) -> bool
    ensures { result ≡ is_one netlist.now signal }
{
    netlist.cells().iter().any(|cell| is_one_cell(signal, cell))
}

// The cover of an input.
fn input_cover(
    alloc: Global,
    line: u32,
    signal: Option<SignalNo>,
    out: SignalNo,
) -> Result<Cell, NoMemory>
    ensures { IfOk result (λ cell. cell ≡ input_cover line signal out) }
{
    match signal {
        None => never(alloc, line, out),
        Some(signal) => passed(alloc, line, signal, out),
    }
}

// The cover of an enable, with that of its clock in it.
fn enable_cover(
    alloc: Global,
    line: u32,
    netlist: &Netlist,
    enable: Option<SignalNo>,
    clock: Option<SignalNo>,
    out: SignalNo,
) -> Result<Cell, NoMemory>
    ensures { IfOk result (λ cell. cell ≡ enable_cover line netlist.now enable clock out) }
{
    let Some(enable) = enable else {
        return never(alloc, line, out);
    };
    let Some(clock) = clock else {
        return passed(alloc, line, enable, out);
    };
    if is_one(netlist, clock) {
        return passed(alloc, line, enable, out);
    }
    if is_one(netlist, enable) {
        return passed(alloc, line, clock, out);
    }
    product(alloc, line, enable, clock, out)
}

// The cover of an output, where it drives a signal.
fn output_cover(
    alloc: Global,
    line: u32,
    hidden: SignalNo,
    signal: Option<SignalNo>,
) -> Result<Option<Cell>, NoMemory>
    ensures { IfOk result (λ cell. cell ≡ output_cover line hidden signal) }
{
    let Some(signal) = signal else {
        return Ok(None);
    };
    let cell = passed(alloc, line, hidden, signal)?;
    Ok(Some(cell))
}

// The signal at a place of a RAM.
fn signal_at(ram: &RamText, place: usize) -> Option<SignalNo>
    ensures { result ≡ signal_at ram.now place }
{
    *ram.signals().get(place)?
}

/// The cover at port k of a RAM, whose signal is the hidden one.
pub(crate) fn port_cover(
    alloc: Global,
    netlist: &Netlist,
    ram: &RamText,
    k: usize,
    hidden: SignalNo,
) -> Result<Option<Cell>, NoMemory>
    requires { k < 74 }
    ensures { IfOk result (λ cell. cell ≡ port_cover netlist.now ram.now k hidden) }
{
    if k < 16 {
        return output_cover(alloc, ram.line(), hidden, signal_at(ram, k + 60));
    }
    let signal = signal_at(ram, k - 16);
    let cell = if k < 72 {
        input_cover(alloc, ram.line(), signal, hidden)?
    } else {
        enable_cover(
            alloc,
            ram.line(),
            netlist,
            signal,
            signal_at(ram, k - 14),
            hidden,
        )?
    };
    Ok(Some(cell))
}

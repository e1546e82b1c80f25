//! Constants that must be driven.
ghost use Rattle.std.specs.Prelude.{◌≡◌, ◌++◌, true, OnOk};
ghost use Rattle.std.specs.List.{list_any};
ghost use Rattle.ice_net.specs.Uses.{pad_uses};
ghost use Rattle.ice_cells.specs.Packed.{constant_cell, constant_if, has_level, reads_zero, reads_one, zero_by, one_by, port_one, needs_zero, needs_one};

use crate::flops::{enable_input, set_input};
use crate::inputs::input_level;
use ice_base::{NoMemory, SignalNo};
use ice_cells::{LogicCell, Origin, is_dropped};
use ice_net::{Cell, CellKind, Port, signal_at};

// Whether an input reads a constant of a level.
fn has_level(origins: &[Origin], level: bool, input: Option<SignalNo>) -> bool
    ensures { result ≡ has_level origins.now level input }
{
    match input_level(origins, input) {
        Some(constant) => constant == level,
        None => false,
    }
}

// Whether a cell of a kind has an enable that is constant 0.
fn reads_zero(origins: &[Origin], kind: CellKind, ins: &[Option<SignalNo>]) -> bool
    ensures { result ≡ reads_zero origins.now kind ins.now }
{
    match kind {
        CellKind::Flop { enable, .. } => has_level(origins, false, enable_input(enable, ins)),
        _ => false,
    }
}

// Whether constant 1 stands at an input in use of an SB_IO.
fn pad_reads_one(origins: &[Origin], pin_type: u8, ins: &[Option<SignalNo>]) -> bool
    ensures { result ≡ list_any (has_level origins.now true) (pad_uses pin_type ins.now) }
{
    if pin_type == 25 {
        return has_level(origins, true, signal_at(ins, 1));
    }
    if pin_type == 41 {
        return has_level(origins, true, signal_at(ins, 1))
            || has_level(origins, true, signal_at(ins, 2));
    }
    false
}

// Whether constant 1 stands at one of the two inputs that a carry adds, and the carry is not dropped.
fn carry_reads_one(origins: &[Origin], ins: &[Option<SignalNo>], outs: &[Option<SignalNo>]) -> bool
    ensures { result ≡ reads_one origins.now CellKind.Carry ins.now outs.now }
{
    if is_dropped(outs) {
        return false;
    }
    has_level(origins, true, signal_at(ins, 0)) || has_level(origins, true, signal_at(ins, 1))
}

// Whether constant 1 stands at an input of a cell of a kind that can't be folded.
fn reads_one(
    origins: &[Origin],
    kind: CellKind,
    ins: &[Option<SignalNo>],
    outs: &[Option<SignalNo>],
) -> bool
    ensures { result ≡ reads_one origins.now kind ins.now outs.now }
{
    match kind {
        CellKind::Carry => carry_reads_one(origins, ins, outs),
        CellKind::Flop { enable, .. } => has_level(origins, true, set_input(enable, ins)),
        CellKind::PadCell { pin_type, .. } => pad_reads_one(origins, pin_type, ins),
        CellKind::Global => has_level(origins, true, signal_at(ins, 0)),
        _ => false,
    }
}

// Whether a cell is a flip-flop whose enable is constant 0.
fn zero_by(origins: &[Origin], cell: &Cell) -> bool
    ensures { result ≡ zero_by origins.now cell.now }
{
    reads_zero(origins, cell.kind, cell.ins.as_slice())
}

// Whether a cell has constant 1 at an input that can't be folded.
fn one_by(origins: &[Origin], cell: &Cell) -> bool
    ensures { result ≡ one_by origins.now cell.now }
{
    let ins = cell.ins.as_slice();
    let outs = cell.outs.as_slice();
    reads_one(origins, cell.kind, ins, outs)
}

/// Whether a logic cell of constant 0 is needed: some enable is constant 0.
pub fn needs_zero(origins: &[Origin], cells: &[Cell]) -> bool
    ensures { result ≡ needs_zero origins.now cells.now }
{
    for cell in cells {
        if zero_by(origins, cell) {
            return true;
        }
    }
    false
}

// Whether some cell has constant 1 at an input that can't be folded.
fn cells_read_one(origins: &[Origin], cells: &[Cell]) -> bool
    ensures { result ≡ list_any (one_by origins.now) cells.now }
{
    for cell in cells {
        if one_by(origins, cell) {
            return true;
        }
    }
    false
}

// Whether the signal of some port is constant 1.
fn ports_read_one(origins: &[Origin], ports: &[Port]) -> bool
    ensures { result ≡ list_any (port_one origins.now) ports.now }
{
    for port in ports {
        if has_level(origins, true, Some(port.signal)) {
            return true;
        }
    }
    false
}

// Whether a logic cell of constant 1 is needed. The ports are the Output ports without an SB_IO.
pub(crate) fn needs_one(origins: &[Origin], cells: &[Cell], bare: &[Port]) -> bool
    ensures { result ≡ needs_one origins.now cells.now bare.now }
{
    cells_read_one(origins, cells) || ports_read_one(origins, bare)
}

// The logic cell of a constant.
fn constant_cell(level: bool) -> LogicCell
    ensures { result ≡ constant_cell level }
{
    LogicCell {
        table: if level { 65535 } else { 0 },
        ins: [None; 4],
        carry: false,
        carry_to_in3: false,
        flop: None,
    }
}

// Adds the logic cell of a constant where it is needed.
pub(crate) fn push_constant(
    made: &mut Vec<LogicCell>,
    needed: bool,
    level: bool,
) -> Result<(), NoMemory>
    ensures { OnOk result (made.new.items ≡ made.old.items ++ constant_if needed level) }
{
    if needed {
        made.push(constant_cell(level))?;
    }
    Ok(())
}

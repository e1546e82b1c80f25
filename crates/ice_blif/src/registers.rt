//! Pads with a register and pads that feed a global, taken apart into cells that a netlist has.
ghost use Rattle.std.specs.Prelude.{◌≡◌, ◌+◌, ◌*◌, ◌<◌, ◌≤◌, length, codes, None, All, OnOk, IfOk, IfErr, IfSome};
ghost use Rattle.ice_net.specs.Formed.{IsFormedCell};
ghost use Rattle.ice_blif.specs.declared.fault.BlifFault.TheVariants.{NoMemory as out_of_memory};
ghost use Rattle.ice_blif.specs.Answers.{Gives};
ghost use Rattle.ice_blif.specs.Cells.{IsReadCell, IsPad};
ghost use Rattle.ice_blif.specs.Registers.{hidden_name, register, input_pad, input_register, output_pad, output_register, buffer_of, with_input, with_output, with_pad, with_cells_of, with_buffer, with_apart};
ghost use Rattle.ice_blif.specs.FewSignals.{few_signals, apart_says, taken_apart_says};
ghost use Rattle.ice_blif.specs.State.{named, signal_of, own_cell, with_cell};

use crate::BlifFault;
use crate::raw::RawNetlist;
use crate::reader::MOST_CELL_LINES;
use crate::signal::number;
use ice_base::SignalNo;
use ice_net::{Cell, CellKind, MOST_SIGNALS, Netlist, Reset, Signals, signal_at};
use itoa::Buffer;
use std::alloc::Global;

/// PIN_TYPE of a pad whose input is registered, and of the same pad without the register.
const INPUT_REGISTER: u8 = 0b00_0000;

const PLAIN_INPUT: u8 = 0b00_0001;

/// PIN_TYPE of a pad whose output is registered, and of the same pad without the register.
const OUTPUT_REGISTER: u8 = 0b01_0101;

const PLAIN_OUTPUT: u8 = 0b01_1001;

/// The places of ports of SB_IO among its inputs.
const PACKAGE_PIN: usize = 0;

const D_OUT_0: usize = 1;

const CLOCK_ENABLE: usize = 5;

const INPUT_CLK: usize = 6;

const OUTPUT_CLK: usize = 7;

/// The place of the port D_IN_0 of SB_IO among its outputs.
const D_IN_0: usize = 0;

/// The hidden signal of a cell or a RAM, by the number of its line and a word.
pub fn hidden_signal(
    alloc: Global,
    netlist: &mut Netlist,
    line: u32,
    word: &[u8],
) -> Result<SignalNo, BlifFault>
    ensures signal { IfOk result (λ signal.
        signal ≡ signal_of netlist.old (hidden_name line word.now)) }
    ensures named { OnOk result (netlist.new ≡ named netlist.old (hidden_name line word.now)) }
    ensures within { IfOk result (λ signal. signal.0 < length netlist.new.names) }
    ensures kept { length netlist.old.names ≤ length netlist.new.names }
    ensures memory { IfErr result (λ e. e ≡ out_of_memory) }
{
    let mut buffer = Buffer::new();
    let mut name = Vec::from_slice(alloc, buffer.format(line).as_bytes())?;
    name.push(b' ')?;
    name.extend_from_slice(word)?;
    number(netlist, &name)
}

// An SB_DFFE with its clock, its data, its enable and its output.
fn register(
    alloc: Global,
    line: u32,
    clock: Option<SignalNo>,
    datum: Option<SignalNo>,
    enable: Option<SignalNo>,
    output: Option<SignalNo>,
) -> Result<Cell, BlifFault>
    ensures cell { IfOk result (λ cell. cell ≡ register line clock datum enable output) }
    ensures memory { IfErr result (λ e. e ≡ out_of_memory) }
{
    let ins = Vec::from_slice(alloc, &[clock, datum, enable])?;
    let outs = Vec::from_slice(alloc, &[output])?;
    Ok(Cell {
        kind: CellKind::Flop {
            falling: false,
            enable: true,
            reset: Reset::Nothing,
        },
        line,
        ins: Signals::from_vec(ins),
        outs: Signals::from_vec(outs),
    })
}

// The register behind a pad's input.
fn input_register(alloc: Global, cell: &Cell, hidden: SignalNo) -> Result<Cell, BlifFault>
    ensures cell { IfOk result (λ register. register ≡ input_register cell.now hidden) }
    ensures memory { IfErr result (λ e. e ≡ out_of_memory) }
{
    let ins = cell.ins.as_slice();
    let clock = signal_at(ins, INPUT_CLK);
    let enable = signal_at(ins, CLOCK_ENABLE);
    let output = signal_at(cell.outs.as_slice(), D_IN_0);
    register(alloc, cell.line, clock, Some(hidden), enable, output)
}

// The pad whose input drives the hidden signal.
fn input_pad(cell: Cell, pullup: bool, hidden: SignalNo) -> Cell
    requires { 0 < length cell.outs }
    ensures { result ≡ input_pad cell pullup hidden }
{
    let mut outs = cell.outs.into_vec();
    outs[D_IN_0] = Some(hidden);
    Cell {
        kind: CellKind::PadCell {
            pin_type: PLAIN_INPUT,
            pullup,
        },
        line: cell.line,
        ins: cell.ins,
        outs: Signals::from_vec(outs),
    }
}

// The register in front of a pad's output.
fn output_register(alloc: Global, cell: &Cell, hidden: SignalNo) -> Result<Cell, BlifFault>
    ensures cell { IfOk result (λ register. register ≡ output_register cell.now hidden) }
    ensures memory { IfErr result (λ e. e ≡ out_of_memory) }
{
    let ins = cell.ins.as_slice();
    let clock = signal_at(ins, OUTPUT_CLK);
    let datum = signal_at(ins, D_OUT_0);
    let enable = signal_at(ins, CLOCK_ENABLE);
    register(alloc, cell.line, clock, datum, enable, Some(hidden))
}

// The pad whose output is the hidden signal.
fn output_pad(cell: Cell, pullup: bool, hidden: SignalNo) -> Cell
    requires { 1 < length cell.ins }
    ensures { result ≡ output_pad cell pullup hidden }
{
    let mut ins = cell.ins.into_vec();
    ins[D_OUT_0] = Some(hidden);
    Cell {
        kind: CellKind::PadCell {
            pin_type: PLAIN_OUTPUT,
            pullup,
        },
        line: cell.line,
        ins: Signals::from_vec(ins),
        outs: cell.outs,
    }
}

// The SB_GB of a cell with one output more than its kind has.
fn buffer_of(alloc: Global, cell: &Cell) -> Result<Option<Cell>, BlifFault>
    ensures buffer { IfOk result (λ buffer. buffer ≡ buffer_of cell.now) }
    ensures memory { IfErr result (λ e. e ≡ out_of_memory) }
{
    let Some(output) = cell.outs.as_slice().get(cell.kind.outs_count()) else {
        return Ok(None);
    };
    let pin = signal_at(cell.ins.as_slice(), PACKAGE_PIN);
    let ins = Vec::from_slice(alloc, &[pin])?;
    let outs = Vec::from_slice(alloc, &[*output])?;
    Ok(Some(Cell {
        kind: CellKind::Global,
        line: cell.line,
        ins: Signals::from_vec(ins),
        outs: Signals::from_vec(outs),
    }))
}

// A cell without outputs behind those of its kind.
fn own_cell(cell: Cell) -> Cell
    ensures { result ≡ own_cell cell }
{
    let mut outs = cell.outs.into_vec();
    outs.truncate(cell.kind.outs_count());
    Cell {
        kind: cell.kind,
        line: cell.line,
        ins: cell.ins,
        outs: Signals::from_vec(outs),
    }
}

// Adds a pad and its register.
fn add_both(netlist: &mut Netlist, pad: Cell, register: Cell) -> Result<(), BlifFault>
    requires few { length netlist.old.cells ≤ 3145725 }
    requires pad { IsFormedCell (length netlist.old.names) pad }
    requires register { IsFormedCell (length netlist.old.names) register }
    ensures netlist { OnOk result (netlist.new ≡ with_cell (with_cell netlist.old pad) register) }
    ensures memory { IfErr result (λ e. e ≡ out_of_memory) }
{
    netlist.cell(pad)?;
    netlist.cell(register)?;
    Ok(())
}

// Adds the cells of a pad whose input is registered.
#[tactic(auto, using(crate::proofs::RegisterCells::input_pad_formed, crate::proofs::RegisterCells::input_register_formed))]
fn add_input(
    alloc: Global,
    netlist: &mut Netlist,
    cell: Cell,
    pullup: bool,
) -> Result<(), BlifFault>
    requires few { length netlist.old.cells ≤ 3145725 }
    requires pad { IsPad (length netlist.old.names) cell }
    ensures netlist { OnOk result
        (netlist.new ≡ with_input (named netlist.old (hidden_name cell.line (codes "in"))) cell
        pullup (signal_of netlist.old (hidden_name cell.line (codes "in")))) }
    ensures memory { IfErr result (λ e. e ≡ out_of_memory) }
{
    let hidden = hidden_signal(alloc, netlist, cell.line, b"in")?;
    let register = input_register(alloc, &cell, hidden)?;
    add_both(netlist, input_pad(cell, pullup, hidden), register)
}

// Adds the cells of a pad whose output is registered.
#[tactic(auto, using(crate::proofs::RegisterCells::output_pad_formed, crate::proofs::RegisterCells::output_register_formed))]
fn add_output(
    alloc: Global,
    netlist: &mut Netlist,
    cell: Cell,
    pullup: bool,
) -> Result<(), BlifFault>
    requires few { length netlist.old.cells ≤ 3145725 }
    requires pad { IsPad (length netlist.old.names) cell }
    ensures netlist { OnOk result
        (netlist.new ≡ with_output (named netlist.old (hidden_name cell.line (codes "out"))) cell
        pullup (signal_of netlist.old (hidden_name cell.line (codes "out")))) }
    ensures memory { IfErr result (λ e. e ≡ out_of_memory) }
{
    let hidden = hidden_signal(alloc, netlist, cell.line, b"out")?;
    let register = output_register(alloc, &cell, hidden)?;
    add_both(netlist, output_pad(cell, pullup, hidden), register)
}

// Adds the cells of a pad.
#[tactic(auto, using(crate::proofs::RegisterCells::pad_formed))]
fn add_pad(
    alloc: Global,
    netlist: &mut Netlist,
    cell: Cell,
    pin_type: u8,
    pullup: bool,
) -> Result<(), BlifFault>
    requires few { length netlist.old.cells ≤ 3145725 }
    requires formed { IsFormedCell (length netlist.old.names) cell }
    requires kind { cell.kind ≡ CellKind.PadCell pin_type pullup }
    ensures netlist { OnOk result (netlist.new ≡ with_pad netlist.old cell pin_type pullup) }
    ensures memory { IfErr result (λ e. e ≡ out_of_memory) }
{
    if pin_type == INPUT_REGISTER {
        return add_input(alloc, netlist, cell, pullup);
    }
    if pin_type == OUTPUT_REGISTER {
        return add_output(alloc, netlist, cell, pullup);
    }
    netlist.cell(cell)?;
    Ok(())
}

// Adds the cells of a cell without outputs behind those of its kind.
fn add_own(alloc: Global, netlist: &mut Netlist, cell: Cell) -> Result<(), BlifFault>
    requires few { length netlist.old.cells ≤ 3145725 }
    requires formed { IsFormedCell (length netlist.old.names) cell }
    ensures netlist { OnOk result (netlist.new ≡ with_cells_of netlist.old cell cell.kind) }
    ensures memory { IfErr result (λ e. e ≡ out_of_memory) }
{
    match cell.kind {
        CellKind::PadCell { pin_type, pullup } => add_pad(alloc, netlist, cell, pin_type, pullup),
        _ => Ok(netlist.cell(cell)?),
    }
}

// Adds an SB_GB, where there is one.
fn add_buffer(netlist: &mut Netlist, buffer: Option<Cell>) -> Result<(), BlifFault>
    requires few { length netlist.old.cells ≤ 3145728 }
    requires formed { IfSome buffer (IsFormedCell (length netlist.old.names)) }
    ensures netlist { OnOk result (netlist.new ≡ with_buffer netlist.old buffer) }
    ensures memory { IfErr result (λ e. e ≡ out_of_memory) }
{
    match buffer {
        None => Ok(()),
        Some(buffer) => Ok(netlist.cell(buffer)?),
    }
}

// Adds the cells that a cell is taken apart into.
#[tactic(auto, using(crate::proofs::RegisterCells::own_formed))]
fn add_apart(alloc: Global, netlist: &mut Netlist, cell: Cell) -> Result<(), BlifFault>
    requires few { length netlist.old.cells ≤ 3145725 }
    requires read { IsReadCell (length netlist.old.names) cell }
    ensures netlist { OnOk result (netlist.new ≡ with_apart netlist.old cell) }
    ensures memory { IfErr result (λ e. e ≡ out_of_memory) }
{
    let buffer = buffer_of(alloc, &cell)?;
    add_own(alloc, netlist, own_cell(cell))?;
    add_buffer(netlist, buffer)
}

// Adds the cells that a cell is taken apart into, and finds that there are too many signals.
fn add(alloc: Global, netlist: &mut Netlist, cell: Cell) -> Result<(), BlifFault>
    requires few { length netlist.old.cells ≤ 3145725 }
    requires read { IsReadCell (length netlist.old.names) cell }
    ensures netlist { Gives (λ _. netlist.new) result
        (few_signals cell.line (with_apart netlist.old cell)) }
    ensures added { OnOk result (netlist.new ≡ with_apart netlist.old cell) }
{
    let line = cell.line;
    add_apart(alloc, netlist, cell)?;
    if netlist.signals() > MOST_SIGNALS {
        return Err(BlifFault::TooMany {
            line,
            limit: MOST_SIGNALS,
        });
    }
    Ok(())
}

// Adds the cells that these cells are taken apart into.
fn add_all(alloc: Global, netlist: &mut Netlist, cells: Vec<Cell>) -> Result<(), BlifFault>
    requires few { length netlist.old.cells + 3 * length cells.items ≤ 3145728 }
    requires read { All (IsReadCell (length netlist.old.names)) cells.items }
    ensures { Gives (λ _. netlist.new) result (apart_says netlist.old cells.items) }
{
    for cell in cells {
        add(alloc, netlist, cell)?;
    }
    Ok(())
}

/// The netlist of one whose cells are as their lines say them: each pad with a register becomes a pad without one and an SB_DFFE,
/// and each pad that feeds a global gets an SB_GB behind it.
pub(crate) fn take_apart(alloc: Global, raw: RawNetlist) -> Result<Netlist, BlifFault>
    requires { length raw.cells ≤ MOST_CELL_LINES }
    ensures { Gives (λ n. n) result (taken_apart_says raw) }
{
    let (mut netlist, cells) = raw.into_parts();
    add_all(alloc, &mut netlist, cells)?;
    Ok(netlist)
}

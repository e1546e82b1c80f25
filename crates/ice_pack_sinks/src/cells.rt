//! The logic cells of a design.
ghost use Rattle.std.specs.Prelude.{◌≡◌, IfOk};
ghost use Rattle.ice_cells.specs.Packed.{lut_inputs, data_input, table_for, inputs_for, flop_for, carry_for, with_carry, cell_by, cell_of, cells_by};
ghost use Rattle.ice_pack_sinks.specs.Plans.{plan};

use crate::Slices;
use crate::constants::{needs_one, needs_zero, push_constant};
use crate::flops::flop_of;
use crate::inputs::ins_at;
use crate::shares::{anchor, number_at, part, taker};
use crate::sinks::{plain_sink, sink};
use crate::tables::{lut_table, passing_table};
use ice_base::{NoMemory, SignalNo};
use ice_cells::{LogicCell, Part, Root, input_origin};
use ice_net::{Cell, Port, signal_at};
use std::alloc::Global;

// The input of the flip-flop of a number that it takes.
fn data_input(cells: &[Cell], flop: usize) -> Option<SignalNo>
    ensures { result ≡ data_input cells.now flop }
{
    signal_at(ins_at(cells, flop), 1)
}

// What the look-up table of a number reads.
fn lut_inputs(slices: &Slices<'_>, cells: &[Cell], j: usize) -> [Option<Root>; 4]
    ensures { result ≡ lut_inputs (plan slices.now) cells.now j }
{
    let ins = ins_at(cells, j);
    [
        plain_sink(slices, signal_at(ins, 0)),
        plain_sink(slices, signal_at(ins, 1)),
        plain_sink(slices, signal_at(ins, 2)),
        plain_sink(slices, signal_at(ins, 3)),
    ]
}

// The table of the logic cell of an anchor.
fn table_for(slices: &Slices<'_>, cells: &[Cell], anchor: usize, part: Part) -> u16
    ensures { result ≡ table_for (plan slices.now) cells.now anchor part }
{
    match part {
        Part::Table => lut_table(slices, cells, anchor),
        Part::Flop(_) => passing_table(input_origin(slices.origins, data_input(cells, anchor))),
        Part::Carry | Part::Nothing => 0,
    }
}

// What the logic cell of an anchor reads beside a carry.
fn inputs_for(slices: &Slices<'_>, cells: &[Cell], anchor: usize, part: Part) -> [Option<Root>; 4]
    ensures { result ≡ inputs_for (plan slices.now) cells.now anchor part }
{
    match part {
        Part::Table => lut_inputs(slices, cells, anchor),
        Part::Flop(_) => [
            plain_sink(slices, data_input(cells, anchor)),
            None,
            None,
            None,
        ],
        Part::Carry | Part::Nothing => [None; 4],
    }
}

// The flip-flop of the logic cell of an anchor.
fn flop_for(slices: &Slices<'_>, anchor: usize, part: Part) -> Option<usize>
    ensures { result ≡ flop_for (plan slices.now) anchor part }
{
    match part {
        Part::Table => taker(slices, anchor),
        Part::Flop(_) => Some(anchor),
        Part::Carry | Part::Nothing => None,
    }
}

// The carry of the logic cell of an anchor.
fn carry_for(slices: &Slices<'_>, anchor: usize, part: Part) -> Option<usize>
    ensures { result ≡ carry_for (plan slices.now) anchor part }
{
    match part {
        Part::Table => number_at(slices.carriers, anchor),
        Part::Carry => Some(anchor),
        Part::Flop(_) | Part::Nothing => None,
    }
}

// What a logic cell reads, where a carry has its own two inputs among them.
fn with_carry(
    slices: &Slices<'_>,
    cells: &[Cell],
    inputs: [Option<Root>; 4],
    carry: Option<usize>,
) -> [Option<Root>; 4]
    ensures { result ≡ with_carry (plan slices.now) cells.now inputs carry }
{
    let Some(c) = carry else {
        return inputs;
    };
    let ins = ins_at(cells, c);
    [
        inputs[0],
        sink(slices, signal_at(ins, 0)),
        sink(slices, signal_at(ins, 1)),
        inputs[3],
    ]
}

// The logic cell of those cells that go by an anchor.
fn cell_by(slices: &Slices<'_>, cells: &[Cell], anchor: usize, part: Part) -> LogicCell
    ensures { result ≡ cell_by (plan slices.now) cells.now anchor part }
{
    let carry = carry_for(slices, anchor, part);
    LogicCell {
        table: table_for(slices, cells, anchor, part),
        ins: with_carry(
            slices,
            cells,
            inputs_for(slices, cells, anchor, part),
            carry,
        ),
        carry: carry.is_some(),
        carry_to_in3: false,
        flop: flop_of(slices, cells, flop_for(slices, anchor, part)),
    }
}

// The logic cell that the cell of a number goes to.
fn cell_of(slices: &Slices<'_>, cells: &[Cell], j: usize) -> LogicCell
    ensures { result ≡ cell_of (plan slices.now) cells.now j }
{
    let anchor = anchor(slices, j);
    cell_by(slices, cells, anchor, part(slices, anchor))
}

/// All logic cells: those that are opened at these cells of the netlist, and then those of constants that something reads. The
/// ports are the Output ports without an SB_IO.
///
/// # Errors
/// Want of memory alone.
pub fn cells_by(
    alloc: Global,
    slices: &Slices<'_>,
    cells: &[Cell],
    bare: &[Port],
    openers: &[usize],
) -> Result<Vec<LogicCell>, NoMemory>
    ensures { IfOk result (λ made.
        made.items ≡ cells_by (plan slices.now) cells.now bare.now openers.now) }
{
    let mut made = Vec::new(alloc);
    for j in openers {
        made.push(cell_of(slices, cells, *j))?;
    }
    push_constant(&mut made, needs_zero(slices.origins, cells), false)?;
    push_constant(&mut made, needs_one(slices.origins, cells, bare), true)?;
    Ok(made)
}

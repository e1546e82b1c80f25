//! The tables of logic cells.
ghost use Rattle.std.specs.Prelude.{◌≡◌, ◌<◌};
ghost use Rattle.ice_lut.specs.Tables.{folded_one};
ghost use Rattle.ice_cells.specs.Packed.{first_input, first_inputs, table_by, table_at, lut_table, passing_table};
ghost use Rattle.ice_pack_sinks.specs.Plans.{plan};

use crate::Slices;
use crate::inputs::{input_level, ins_at};
use ice_cells::Origin;
use ice_lut::{rewired, with_constant};
use ice_net::{Cell, CellKind, signal_at};

// An input, where a cover of a width has it.
fn first_input(input: u8, width: u8) -> Option<u8>
    ensures { result ≡ first_input input width }
{
    if input < width { Some(input) } else { None }
}

// Of four inputs, those that a cover of a width has.
fn first_inputs(width: u8) -> [Option<u8>; 4]
    ensures { result ≡ first_inputs width }
{
    [
        first_input(0, width),
        first_input(1, width),
        first_input(2, width),
        first_input(3, width),
    ]
}

// The table of a cell; that of a cover ignores the inputs that it lacks.
fn table_by(kind: CellKind) -> u16
    ensures { result ≡ table_by kind }
{
    match kind {
        CellKind::Lut { table } => table,
        CellKind::Cover { table, width } => rewired(table, first_inputs(width)),
        _ => 0,
    }
}

// The table of the cell of a number.
fn table_at(cells: &[Cell], j: usize) -> u16
    ensures { result ≡ table_at cells.now j }
{
    match cells.get(j) {
        Some(cell) => table_by(cell.kind),
        None => 0,
    }
}

// The table with an input constant, if there is a level for it.
fn folded_one(table: u16, input: u8, level: Option<bool>) -> u16
    requires { input < 4 }
    ensures { result ≡ folded_one table input level }
{
    match level {
        Some(level) => with_constant(table, input, level),
        None => table,
    }
}

// The table of the look-up table that is the cell of a number, with its constant inputs in it.
pub(crate) fn lut_table(slices: &Slices<'_>, cells: &[Cell], j: usize) -> u16
    ensures { result ≡ lut_table (plan slices.now) cells.now j }
{
    let origins = slices.origins;
    let ins = ins_at(cells, j);
    let table = folded_one(
        table_at(cells, j),
        0,
        input_level(origins, signal_at(ins, 0)),
    );
    let table = folded_one(table, 1, input_level(origins, signal_at(ins, 1)));
    let table = folded_one(table, 2, input_level(origins, signal_at(ins, 2)));
    folded_one(table, 3, input_level(origins, signal_at(ins, 3)))
}

// The table before a flip-flop with a cell of its own: it passes the first input on, or is the constant that the flip-flop takes.
pub(crate) fn passing_table(origin: Origin) -> u16
    ensures { result ≡ passing_table origin }
{
    match origin {
        Origin::Fixed(level) => if level { 65535 } else { 0 },
        Origin::Pad(_) | Origin::Made(_) => 43690,
    }
}

//! What is read so far of a netlist text.
ghost use Rattle.std.specs.Prelude.{◌≡◌, ◌+◌, ◌≤◌, length, OnOk, IfErr};
ghost use Rattle.ice_blif.specs.declared.fault.BlifFault.TheVariants.{NoMemory as out_of_memory};
ghost use Rattle.ice_blif.specs.Cells.{IsFormedLast, IsReady};
ghost use Rattle.ice_blif.specs.State.{finished, cover_cell};
ghost use Rattle.ice_blif.specs.Grammar.{with_last};
ghost use Rattle.ice_blif.specs.Views.{cover_view, last_view, reader_view};

use crate::BlifFault;
use crate::cover::table_of;
use crate::raw::RawNetlist;
use ice_net::{Cell, CellKind, Signals};
use std::mem::replace;

/// The lines that make a cell that a netlist may have.
pub(crate) const MOST_CELL_LINES: u32 = 1_048_576;

/// A cover, whose rows may be read.
#[derive(Drop)]
pub(crate) struct Cover {
    /// The number of its `.names` line.
    pub(crate) line: u32,
    /// The signals of its inputs.
    pub(crate) ins: Signals,
    /// The signal of its output.
    pub(crate) outs: Signals,
    /// Bit j says whether a row has the levels with the number j.
    pub(crate) covered: u16,
    /// The level that the rows give.
    pub(crate) level: Option<bool>,
}

/// The cell that was made last.
#[derive(Drop)]
pub(crate) enum Last {
    /// There is none.
    Nothing,
    /// A `.gate` or `.subckt` cell, to which parameters belong.
    Gate(Cell),
    /// A RAM, to which parameters belong. It is no cell of the netlist.
    Memory,
    /// A `.names` cell, to which rows belong.
    Rows(Cover),
}

/// What is read so far.
#[derive(Drop)]
pub(crate) struct Reader {
    /// All but the last cell.
    pub(crate) netlist: RawNetlist,
    /// The last cell.
    pub(crate) last: Last,
    /// Whether a row may stand in the next line.
    pub(crate) rows: bool,
}

// The cell of a cover with all its rows.
fn cover_cell(cover: Cover) -> Cell
    requires { length cover.ins ≤ 4 }
    ensures { result ≡ cover_cell (cover_view cover) }
{
    let width = cover.ins.as_slice().len() as u8;
    Cell {
        kind: CellKind::Cover {
            table: table_of(width, cover.level, cover.covered),
            width,
        },
        line: cover.line,
        ins: cover.ins,
        outs: cover.outs,
    }
}

/// Lets the last cell join the others.
#[tactic(auto, using(crate::proofs::OpenCells::cover_read))]
pub(crate) fn finish(netlist: &mut RawNetlist, last: Last) -> Result<(), BlifFault>
    requires { IsFormedLast (length netlist.old.names) (last_view last) }
    ensures netlist { OnOk result (netlist.new ≡ finished netlist.old (last_view last)) }
    ensures memory { IfErr result (λ e. e ≡ out_of_memory) }
{
    match last {
        Last::Nothing | Last::Memory => Ok(()),
        Last::Gate(cell) => netlist.cell(cell),
        Last::Rows(cover) => netlist.cell(cover_cell(cover)),
    }
}

/// Makes a new last cell; the one before joins the others.
#[tactic(auto, using(crate::proofs::OpenCells::last_ready))]
pub(crate) fn join(reader: &mut Reader, now: Last, rows: bool) -> Result<(), BlifFault>
    requires few { length reader.old.netlist.cells ≤ MOST_CELL_LINES }
    requires formed { IsFormedLast (length reader.old.netlist.names) (last_view reader.old.last) }
    requires now { IsFormedLast (length reader.old.netlist.names) (last_view now) }
    ensures reader { OnOk result (reader_view reader.new
        ≡ with_last reader.old.netlist (last_view reader.old.last) (last_view now) rows) }
    ensures ready { OnOk result (IsReady (MOST_CELL_LINES + 1) (reader_view reader.new)) }
    ensures memory { IfErr result (λ e. e ≡ out_of_memory) }
{
    let before = replace(&mut reader.last, now);
    finish(&mut reader.netlist, before)?;
    reader.rows = rows;
    Ok(())
}

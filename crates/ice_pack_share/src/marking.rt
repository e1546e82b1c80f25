//! How the cells of a netlist are read.
ghost use Rattle.std.specs.Prelude.{◌≡◌, ◌∷◌, [], map, replicate, IfOk};
ghost use Rattle.ice_net.specs.Uses.{pad_uses};
ghost use Rattle.ice_cells.specs.declared.origin.Use.TheVariants.{Nobody};
ghost use Rattle.ice_cells.specs.Uses.{reading_ins, taker, reads_from, cells_read, port_reading, uses, marked, use_after};

use crate::inputs::is_alias;
use ice_base::{NoMemory, SignalNo};
use ice_cells::{Origin, Use, input_origin, is_dropped};
use ice_net::{Cell, CellKind, Port, signal_at};
use std::alloc::Global;

// How a cell is read after one more reading.
fn use_after(before: Use, reader: Option<usize>) -> Use
    ensures { result ≡ use_after before reader }
{
    match (before, reader) {
        (Use::Nobody, Some(f)) => Use::Taken(f),
        _ => Use::Other,
    }
}

// Takes down one reading.
fn mark(uses: &mut Vec<Use>, origin: Origin, reader: Option<usize>)
    ensures { uses.new.items ≡ marked uses.old.items ((origin, reader) ∷ []) }
{
    if let Origin::Made(j) = origin {
        if j < uses.len() {
            uses[j] = use_after(uses[j], reader);
        }
    }
}

// The flip-flop that reads by its input of that place as the level that it takes.
fn taker(j: usize, kind: CellKind, place: usize) -> Option<usize>
    ensures { result ≡ taker j kind place }
{
    match kind {
        CellKind::Flop { .. } => if place == 1 { Some(j) } else { None },
        _ => None,
    }
}

// Takes down what a cell reads by these inputs.
fn mark_ins(
    uses: &mut Vec<Use>,
    origins: &[Origin],
    j: usize,
    kind: CellKind,
    ins: &[Option<SignalNo>],
)
    ensures { uses.new.items ≡ marked uses.old.items (reads_from origins.now j kind 0 ins.now) }
{
    for (place, input) in ins.iter().enumerate() {
        mark(uses, input_origin(origins, *input), taker(j, kind, place));
    }
}

// Takes down what an SB_IO reads by its inputs in use.
fn mark_pad(
    uses: &mut Vec<Use>,
    origins: &[Origin],
    j: usize,
    kind: CellKind,
    pin_type: u8,
    ins: &[Option<SignalNo>],
)
    ensures { uses.new.items
        ≡ marked uses.old.items (reads_from origins.now j kind 0 (pad_uses pin_type ins.now)) }
{
    match pin_type {
        25 => mark_ins(uses, origins, j, kind, &[signal_at(ins, 1)]),
        41 => mark_ins(
            uses,
            origins,
            j,
            kind,
            &[signal_at(ins, 1), signal_at(ins, 2)],
        ),
        _ => {}
    }
}

// Takes down what a cell reads: nothing by an alias and by a carry that is dropped.
fn mark_cell(
    uses: &mut Vec<Use>,
    origins: &[Origin],
    j: usize,
    kind: CellKind,
    ins: &[Option<SignalNo>],
    outs: &[Option<SignalNo>],
)
    ensures { uses.new.items ≡ marked uses.old.items
        (reads_from origins.now j kind 0 (reading_ins kind ins.now outs.now)) }
{
    match kind {
        CellKind::Cover { .. } => if !is_alias(kind) {
            mark_ins(uses, origins, j, kind, ins);
        },
        CellKind::Carry => if !is_dropped(outs) {
            mark_ins(uses, origins, j, kind, ins);
        },
        CellKind::PadCell { pin_type, .. } => mark_pad(uses, origins, j, kind, pin_type, ins),
        CellKind::Lut { .. } | CellKind::Flop { .. } | CellKind::Global => {
            mark_ins(uses, origins, j, kind, ins);
        }
    }
}

// Takes down what cells read.
fn mark_cells(uses: &mut Vec<Use>, origins: &[Origin], cells: &[Cell])
    ensures { uses.new.items ≡ marked uses.old.items (cells_read origins.now 0 cells.now) }
{
    for (j, cell) in cells.iter().enumerate() {
        mark_cell(
            uses,
            origins,
            j,
            cell.kind,
            cell.ins.as_slice(),
            cell.outs.as_slice(),
        );
    }
}

// Takes down what the Output ports without an SB_IO read.
fn mark_ports(uses: &mut Vec<Use>, origins: &[Origin], bare: &[Port])
    ensures { uses.new.items ≡ marked uses.old.items (map (port_reading origins.now) bare.now) }
{
    for port in bare {
        mark(uses, input_origin(origins, Some(port.signal)), None);
    }
}

// So many cells that nothing reads.
fn unread(alloc: Global, count: usize) -> Result<Vec<Use>, NoMemory>
    ensures { IfOk result (λ uses. uses.items ≡ replicate count Nobody) }
{
    Ok(vec![in alloc; Use::Nobody; count]?)
}

/// How each cell is read, by all cells and by the Output ports without an SB_IO.
///
/// # Errors
/// Want of memory alone.
#[tactic(auto, using(crate::proofs::Marks::uses_found))]
pub(crate) fn find_uses(
    alloc: Global,
    cells: &[Cell],
    origins: &[Origin],
    bare: &[Port],
) -> Result<Vec<Use>, NoMemory>
    ensures { IfOk result (λ found. found.items ≡ uses origins.now cells.now bare.now) }
{
    let mut found = unread(alloc, cells.len())?;
    mark_cells(&mut found, origins, cells);
    mark_ports(&mut found, origins, bare);
    Ok(found)
}

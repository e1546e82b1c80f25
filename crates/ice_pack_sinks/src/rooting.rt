//! The roots of the outputs of a netlist's cells.
ghost use Rattle.std.specs.Prelude.{◌≡◌, IfOk, slice_index_or};
ghost use Rattle.ice_cells.specs.Packed.{pad_root, root_by, roots_from, one_if, is_global};

use ice_base::{NoMemory, SignalNo, to_u32};
use ice_cells::{Origin, Root, input_origin, is_dropped, is_table_kind};
use ice_net::{Cell, CellKind, signal_at};
use std::alloc::Global;

// The number of the logic cell that the cell of a number goes to.
pub(crate) fn home_at(homes: &[usize], j: usize) -> usize
    ensures { result ≡ slice_index_or homes.now j 0 }
{
    if j < homes.len() { homes[j] } else { 0 }
}

// The root of D_IN_0 of an SB_IO, by the origin of the signal at its pin.
fn pad_root(origin: Origin) -> Option<Root>
    ensures { result ≡ pad_root origin }
{
    match origin {
        Origin::Pad(k) => Some(Root::PadIn(k)),
        Origin::Fixed(_) | Origin::Made(_) => None,
    }
}

// The root of the output of a cell, where so many global buffers stand before it.
fn root_by(
    origins: &[Origin],
    home: usize,
    globals: usize,
    kind: CellKind,
    ins: &[Option<SignalNo>],
    outs: &[Option<SignalNo>],
) -> Result<Option<Root>, NoMemory>
    ensures { IfOk result (λ root. root ≡ root_by origins.now home globals kind ins.now outs.now) }
{
    match kind {
        CellKind::Carry => {
            if is_dropped(outs) {
                return Ok(None);
            }
            Ok(Some(Root::CarryOut(to_u32(home)?)))
        }
        CellKind::PadCell { .. } => Ok(pad_root(input_origin(origins, signal_at(ins, 0)))),
        CellKind::Global => Ok(Some(Root::GlobalOut(to_u32(globals)?))),
        CellKind::Flop { .. } => Ok(Some(Root::CellOut(to_u32(home)?))),
        CellKind::Lut { .. } | CellKind::Cover { .. } => {
            if !is_table_kind(kind) {
                return Ok(None);
            }
            Ok(Some(Root::CellOut(to_u32(home)?)))
        }
    }
}

// The root of the output of a cell, by the same.
fn root_of(
    origins: &[Origin],
    home: usize,
    globals: usize,
    cell: &Cell,
) -> Result<Option<Root>, NoMemory>
    ensures { IfOk result (λ root.
        root ≡ root_by origins.now home globals cell.now.kind cell.now.ins cell.now.outs) }
{
    let ins = cell.ins.as_slice();
    let outs = cell.outs.as_slice();
    let root = root_by(origins, home, globals, cell.kind, ins, outs)?;
    Ok(root)
}

// 1 for a global buffer, else 0.
fn global_count(kind: CellKind) -> usize
    ensures { result ≡ one_if (is_global kind) }
{
    match kind {
        CellKind::Global => 1,
        _ => 0,
    }
}

/// The root of the output of each cell, by the number of the logic cell that each goes to.
///
/// # Errors
/// Want of memory alone.
pub fn roots_from(
    alloc: Global,
    origins: &[Origin],
    homes: &[usize],
    cells: &[Cell],
) -> Result<Vec<Option<Root>>, NoMemory>
    ensures { IfOk result (λ roots. roots.items ≡ roots_from origins.now homes.now 0 0 cells.now) }
{
    let mut roots = Vec::new(alloc);
    let mut globals = 0;
    for (j, cell) in cells.iter().enumerate() {
        let root = root_of(origins, home_at(homes, j), globals, cell)?;
        roots.push(root)?;
        globals += global_count(cell.kind);
    }
    Ok(roots)
}

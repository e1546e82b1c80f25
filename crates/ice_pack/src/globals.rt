//! What global buffers read.
ghost use Rattle.std.specs.Prelude.{◌≡◌, ◌++◌, IfOk, OnOk};
ghost use Rattle.ice_cells.specs.Packed.{global_by, globals_of};
ghost use Rattle.ice_pack_sinks.specs.Plans.{plan};

use ice_base::NoMemory;
use ice_cells::Root;
use ice_net::{Cell, CellKind, signal_at};
use ice_pack_sinks::{Slices, sink};
use std::alloc::Global;

// Adds what a cell reads, where it is a global buffer.
fn push_global(
    found: &mut Vec<Option<Root>>,
    slices: &Slices<'_>,
    cell: &Cell,
) -> Result<(), NoMemory>
    ensures { OnOk result (found.new.items
        ≡ found.old.items ++ global_by (plan slices.now) cell.now.kind cell.now.ins) }
{
    let CellKind::Global = cell.kind else {
        return Ok(());
    };
    found.push(sink(slices, signal_at(cell.ins.as_slice(), 0)))?;
    Ok(())
}

// What each global buffer reads.
pub(crate) fn globals_of(
    alloc: Global,
    slices: &Slices<'_>,
    cells: &[Cell],
) -> Result<Vec<Option<Root>>, NoMemory>
    ensures { IfOk result (λ found. found.items ≡ globals_of (plan slices.now) cells.now) }
{
    let mut found = Vec::new(alloc);
    for cell in cells {
        push_global(&mut found, slices, cell)?;
    }
    Ok(found)
}

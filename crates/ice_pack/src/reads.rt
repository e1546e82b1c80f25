//! Which pads are read.
ghost use Rattle.std.specs.Prelude.{◌≡◌, ◌∷◌, [], false, length, map, flat_map, replicate, IfOk};
ghost use Rattle.ice_cells.specs.Readings.{carry_root, control_roots, cell_roots, pad_roots, roots_read};
ghost use Rattle.ice_pack.specs.Marks.{marked, marked_pad};

use ice_base::NoMemory;
use ice_cells::{CarryIn, Control, Design, DesignPad, Items, LogicCell, Root};
use ice_net::Reset;
use std::alloc::Global;

// Notes that something reads a root, where that is a pad.
fn mark(marks: &mut Vec<bool>, root: Option<Root>)
    ensures { marks.new.items ≡ marked marks.old.items (root ∷ []) }
{
    if let Some(Root::PadIn(k)) = root {
        if (k as usize) < marks.len() {
            marks[k as usize] = true;
        }
    }
}

// Notes what comes into a carry.
fn mark_carry(marks: &mut Vec<bool>, carry: (u32, CarryIn))
    ensures { marks.new.items ≡ marked marks.old.items (carry_root carry ∷ []) }
{
    if let (_, CarryIn::Read(root)) = carry {
        mark(marks, Some(root));
    }
}

// Notes what comes into carries.
fn mark_carries(marks: &mut Vec<bool>, carries: &[(u32, CarryIn)])
    ensures { marks.new.items ≡ marked marks.old.items (map carry_root carries.now) }
{
    for carry in carries {
        mark_carry(marks, *carry);
    }
}

// Notes what drives a flip-flop.
fn mark_flop(marks: &mut Vec<bool>, flop: Option<(Control, Reset)>)
    ensures { marks.new.items ≡ marked marks.old.items (control_roots flop) }
{
    if let Some((control, _)) = flop {
        mark(marks, control.clock);
        mark(marks, control.enable);
        mark(marks, control.reset);
    }
}

// Notes what a logic cell reads.
fn mark_cell(marks: &mut Vec<bool>, cell: LogicCell)
    ensures { marks.new.items ≡ marked marks.old.items (cell_roots cell) }
{
    mark(marks, cell.ins[0]);
    mark(marks, cell.ins[1]);
    mark(marks, cell.ins[2]);
    mark(marks, cell.ins[3]);
    mark_flop(marks, cell.flop);
}

// Notes what logic cells read.
fn mark_cells(marks: &mut Vec<bool>, cells: &[LogicCell])
    ensures { marks.new.items ≡ marked marks.old.items (flat_map cell_roots cells.now) }
{
    for cell in cells {
        mark_cell(marks, *cell);
    }
}

// Notes what a pad is driven and enabled with.
fn mark_pad(marks: &mut Vec<bool>, pad: DesignPad)
    ensures { marks.new.items ≡ marked marks.old.items (pad_roots pad) }
{
    mark(marks, pad.drive);
    mark(marks, pad.enable);
}

// Notes what pads are driven and enabled with.
fn mark_pads(marks: &mut Vec<bool>, pads: &[DesignPad])
    ensures { marks.new.items ≡ marked marks.old.items (flat_map pad_roots pads.now) }
{
    for pad in pads {
        mark_pad(marks, *pad);
    }
}

// Notes what global buffers read.
fn mark_globals(marks: &mut Vec<bool>, globals: &[Option<Root>])
    ensures { marks.new.items ≡ marked marks.old.items globals.now }
{
    for root in globals {
        mark(marks, *root);
    }
}

// Marks of so many ports whose pads nothing reads.
fn no_marks(alloc: Global, count: usize) -> Result<Vec<bool>, NoMemory>
    ensures { IfOk result (λ marks. marks.items ≡ replicate count false) }
{
    Ok(vec![in alloc; false; count]?)
}

// The ports of a design whose pads something reads.
#[tactic(auto, using(crate::proofs::Marking::all_marked))]
pub(crate) fn marks_of(alloc: Global, design: &Design) -> Result<Vec<bool>, NoMemory>
    ensures { IfOk result (λ marks.
        marks.items ≡ marked (replicate (length design.now.pads) false) (roots_read design.now)) }
{
    let mut marks = no_marks(alloc, design.pads().len())?;
    mark_carries(&mut marks, design.carries.as_slice());
    mark_cells(&mut marks, design.cells());
    mark_pads(&mut marks, design.pads());
    mark_globals(&mut marks, design.globals());
    Ok(marks)
}

// The pads by the marks of their ports.
pub(crate) fn marked_pads(
    alloc: Global,
    marks: &[bool],
    pads: &[DesignPad],
) -> Result<Vec<DesignPad>, NoMemory>
    ensures { IfOk result (λ found. found.items ≡ map (marked_pad marks.now) pads.now) }
{
    let mut found = Vec::new(alloc);
    for pad in pads {
        let k = pad.port as usize;
        found.push(DesignPad {
            port: pad.port,
            pin_type: pad.pin_type,
            pullup: pad.pullup,
            drive: pad.drive,
            enable: pad.enable,
            reads: k < marks.len() && marks[k],
        })?;
    }
    Ok(found)
}

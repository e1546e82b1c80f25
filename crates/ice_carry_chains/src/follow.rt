//! Which carry follows which.
ghost use Rattle.std.specs.Prelude.{◌≡◌, ◌++◌, [], ◌∷◌, length, map, flat_map, replicate, IfOk};
ghost use Rattle.ice_cells.specs.Readings.{carry_reading, cell_readings, cells_readings, control_readings, pad_readings, plain, readings};
ghost use Rattle.ice_cells.specs.Follows.{follows, marked, after};

use ice_base::NoMemory;
use ice_cells::{CarryIn, Control, Design, DesignPad, Follow, LogicCell, Reader, Root};
use ice_net::Reset;
use std::alloc::Global;

// How a carry is read after one more reading.
fn mark_after(mark: Follow, root: Option<Root>, reader: Reader) -> Follow
    ensures { result ≡ after mark (root, reader) }
{
    match (mark, reader) {
        (Follow::Nobody, Reader::Into(d)) => Follow::Next(d),
        (Follow::Next(d), Reader::Last(e)) => {
            if d == e {
                Follow::Next(d)
            } else {
                Follow::Other
            }
        }
        _ => Follow::Other,
    }
}

// Takes down one reading.
fn mark(marks: &mut Vec<Follow>, root: Option<Root>, reader: Reader)
    ensures { marks.new.items ≡ marked marks.old.items ((root, reader) ∷ []) }
{
    if let Some(Root::CarryOut(c)) = root {
        let c = c as usize;
        if c < marks.len() {
            marks[c] = mark_after(marks[c], root, reader);
        }
    }
}

// Takes down what comes into carries.
fn mark_carries(marks: &mut Vec<Follow>, carries: &[(u32, CarryIn)])
    ensures { marks.new.items ≡ marked marks.old.items (map carry_reading carries.now) }
{
    for (c, into) in carries {
        if let CarryIn::Read(root) = *into {
            mark(marks, Some(root), Reader::Into(*c as usize));
        }
    }
}

// Takes down what drives a flip-flop.
fn mark_control(marks: &mut Vec<Follow>, flop: Option<(Control, Reset)>)
    ensures { marks.new.items ≡ marked marks.old.items (control_readings flop) }
{
    if let Some((control, _)) = flop {
        mark(marks, control.clock, Reader::Else);
        mark(marks, control.enable, Reader::Else);
        mark(marks, control.reset, Reader::Else);
    }
}

// Takes down what a cell reads.
fn mark_cell(marks: &mut Vec<Follow>, c: usize, cell: &LogicCell)
    ensures { marks.new.items ≡ marked marks.old.items (cell_readings c cell.now) }
{
    mark(marks, cell.ins[0], Reader::Else);
    mark(marks, cell.ins[1], Reader::Else);
    mark(marks, cell.ins[2], Reader::Else);
    mark(marks, cell.ins[3], Reader::Last(c));
    mark_control(marks, cell.flop);
}

// Takes down what cells read.
fn mark_cells(marks: &mut Vec<Follow>, cells: &[LogicCell])
    ensures { marks.new.items ≡ marked marks.old.items (cells_readings 0 cells.now) }
{
    for (c, cell) in cells.iter().enumerate() {
        mark_cell(marks, c, cell);
    }
}

// Takes down what pads read.
fn mark_pads(marks: &mut Vec<Follow>, pads: &[DesignPad])
    ensures { marks.new.items ≡ marked marks.old.items (flat_map pad_readings pads.now) }
{
    for pad in pads {
        mark(marks, pad.drive, Reader::Else);
        mark(marks, pad.enable, Reader::Else);
    }
}

// Takes down what global buffers read.
fn mark_globals(marks: &mut Vec<Follow>, globals: &[Option<Root>])
    ensures { marks.new.items ≡ marked marks.old.items (map plain globals.now) }
{
    for root in globals {
        mark(marks, *root, Reader::Else);
    }
}

// Marks of so many cells whose carries nothing reads.
fn unread(alloc: Global, count: usize) -> Result<Vec<Follow>, NoMemory>
    ensures { IfOk result (λ marks. marks.items ≡ replicate count Follow.Nobody) }
{
    Ok(vec![in alloc; Follow::Nobody; count]?)
}

/// How the carry of each cell is read, by the cells' numbers. It fails for want of memory alone.
#[tactic(auto, using(crate::proofs::Following::follows_found))]
pub fn find_follows(alloc: Global, design: &Design) -> Result<Vec<Follow>, NoMemory>
    ensures { IfOk result (λ marks. marks.items ≡ follows design.now) }
{
    let mut marks = unread(alloc, design.cells().len())?;
    mark_carries(&mut marks, design.carries.as_slice());
    mark_cells(&mut marks, design.cells());
    mark_pads(&mut marks, design.pads());
    mark_globals(&mut marks, design.globals());
    Ok(marks)
}

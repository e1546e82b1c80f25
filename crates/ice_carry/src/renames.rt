//! Readers are renamed: they read a flip-flop where it went, and a carry at the cell that passes it on. Where the flip-flop of cell c
//! went, stands at place c of an array, and the cell that passes the carry of cell c on at place c of another.
ghost use Rattle.std.specs.Prelude.{◌≡◌, ◌++◌, IfOk, OnOk, map, None, slice_index_or};
ghost use Rattle.ice_cells.specs.Runs.{renamed_pad};
ghost use Rattle.ice_cells.specs.Moves.{renamed, renamed_source, renamed_control, renamed_flop, kept_flop, is_chained, last_input, become, become_from, flop_at, moved_cell, cells_after};

use ice_base::NoMemory;
use ice_cells::{Control, DesignPad, LogicCell, Root};
use ice_net::Reset;
use std::alloc::Global;

// The number of a cell, if it has one.
fn number(numbers: &[Option<u32>], c: usize) -> Option<u32>
    ensures { result ≡ slice_index_or numbers.now c None }
{
    if c < numbers.len() { numbers[c] } else { None }
}

// The root that a reader of a root reads afterwards.
fn renamed(moved: &[Option<u32>], fed: &[Option<u32>], root: Root) -> Root
    ensures { result ≡ renamed moved.now fed.now root }
{
    match root {
        Root::PadIn(_) | Root::GlobalOut(_) => root,
        Root::CellOut(c) => Root::CellOut(number(moved, c as usize).unwrap_or(c)),
        Root::CarryOut(c) => match number(fed, c as usize) {
            Some(f) => Root::CellOut(f),
            None => root,
        },
    }
}

// The root that a reader reads afterwards, which may be missing.
fn renamed_source(moved: &[Option<u32>], fed: &[Option<u32>], root: Option<Root>) -> Option<Root>
    ensures { result ≡ renamed_source moved.now fed.now root }
{
    Some(renamed(moved, fed, root?))
}

// How a flip-flop is driven afterwards.
fn renamed_control(moved: &[Option<u32>], fed: &[Option<u32>], control: Control) -> Control
    ensures { result ≡ renamed_control moved.now fed.now control }
{
    Control {
        clock: renamed_source(moved, fed, control.clock),
        falling: control.falling,
        enable: renamed_source(moved, fed, control.enable),
        reset: renamed_source(moved, fed, control.reset),
    }
}

fn renamed_flop(
    moved: &[Option<u32>],
    fed: &[Option<u32>],
    flop: Option<(Control, Reset)>,
) -> Option<(Control, Reset)>
    ensures { result ≡ renamed_flop moved.now fed.now flop }
{
    let (control, reset) = flop?;
    Some((renamed_control(moved, fed, control), reset))
}

// Whether a last input takes the carry from below.
fn is_chained(fed: &[Option<u32>], input: Option<Root>) -> bool
    ensures { result ≡ is_chained fed.now input }
{
    let Some(Root::CarryOut(c)) = input else {
        return false;
    };
    number(fed, c as usize).is_none()
}

// What a cell becomes.
fn become_of(moved: &[Option<u32>], fed: &[Option<u32>], c: usize, cell: &LogicCell) -> LogicCell
    ensures { result ≡ become moved.now fed.now c cell.now }
{
    let chained = is_chained(fed, cell.ins[3]);
    let last = if chained {
        None
    } else {
        renamed_source(moved, fed, cell.ins[3])
    };
    let flop = if number(moved, c).is_some() {
        None
    } else {
        cell.flop
    };
    LogicCell {
        table: cell.table,
        ins: [
            renamed_source(moved, fed, cell.ins[0]),
            renamed_source(moved, fed, cell.ins[1]),
            renamed_source(moved, fed, cell.ins[2]),
            last,
        ],
        carry: cell.carry,
        carry_to_in3: chained || cell.carry_to_in3,
        flop: renamed_flop(moved, fed, flop),
    }
}

// The cell to which the flip-flop of a cell went.
fn moved_cell(moved: &[Option<u32>], fed: &[Option<u32>], cells: &[LogicCell], c: u32) -> LogicCell
    ensures { result ≡ moved_cell moved.now fed.now cells.now c }
{
    let flop = match cells.get(c as usize) {
        Some(cell) => cell.flop,
        None => None,
    };
    LogicCell {
        table: 43690,
        ins: [Some(Root::CellOut(c)), None, None, None],
        carry: false,
        carry_to_in3: false,
        flop: renamed_flop(moved, fed, flop),
    }
}

// Appends what cells become.
fn push_become(
    after: &mut Vec<LogicCell>,
    moved: &[Option<u32>],
    fed: &[Option<u32>],
    cells: &[LogicCell],
) -> Result<(), NoMemory>
    ensures { OnOk result
        (after.new.items ≡ after.old.items ++ become_from moved.now fed.now 0 cells.now) }
{
    for (c, cell) in cells.iter().enumerate() {
        after.push(become_of(moved, fed, c, cell))?;
    }
    Ok(())
}

// Appends the cells to which flip-flops went.
fn push_moved(
    after: &mut Vec<LogicCell>,
    moved: &[Option<u32>],
    fed: &[Option<u32>],
    cells: &[LogicCell],
    movers: &[u32],
) -> Result<(), NoMemory>
    ensures { OnOk result (after.new.items
        ≡ after.old.items ++ map (moved_cell moved.now fed.now cells.now) movers.now) }
{
    for c in movers {
        after.push(moved_cell(moved, fed, cells, *c))?;
    }
    Ok(())
}

// The cells, after flip-flops have moved and readers are renamed.
pub(crate) fn cells_after(
    alloc: Global,
    moved: &[Option<u32>],
    fed: &[Option<u32>],
    cells: &[LogicCell],
    movers: &[u32],
) -> Result<Vec<LogicCell>, NoMemory>
    ensures { IfOk result (λ after.
        after.items ≡ cells_after moved.now fed.now cells.now movers.now) }
{
    let mut after = Vec::new(alloc);
    push_become(&mut after, moved, fed, cells)?;
    push_moved(&mut after, moved, fed, cells, movers)?;
    Ok(after)
}

// What pads read afterwards.
pub(crate) fn rename_pads(
    alloc: Global,
    moved: &[Option<u32>],
    fed: &[Option<u32>],
    pads: &[DesignPad],
) -> Result<Vec<DesignPad>, NoMemory>
    ensures { IfOk result (λ after. after.items ≡ map (renamed_pad moved.now fed.now) pads.now) }
{
    let mut after = Vec::new(alloc);
    for pad in pads {
        after.push(DesignPad {
            drive: renamed_source(moved, fed, pad.drive),
            enable: renamed_source(moved, fed, pad.enable),
            port: pad.port,
            pin_type: pad.pin_type,
            pullup: pad.pullup,
            reads: pad.reads,
        })?;
    }
    Ok(after)
}

// What global buffers read afterwards.
pub(crate) fn rename_globals(
    alloc: Global,
    moved: &[Option<u32>],
    fed: &[Option<u32>],
    globals: &[Option<Root>],
) -> Result<Vec<Option<Root>>, NoMemory>
    ensures { IfOk result (λ after.
        after.items ≡ map (renamed_source moved.now fed.now) globals.now) }
{
    let mut after = Vec::new(alloc);
    for root in globals {
        after.push(renamed_source(moved, fed, *root))?;
    }
    Ok(after)
}

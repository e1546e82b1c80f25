//! Which flip-flops leave the cells of runs, and where they go.
ghost use Rattle.std.specs.Prelude.{◌≡◌, ◌++◌, IfOk, OnOk};
ghost use Rattle.ice_cells.specs.Same.{same_control};
ghost use Rattle.ice_cells.specs.Moves.{differs, piece_moves, run_moves, moves};
ghost use Rattle.ice_cells.specs.Runs.{numbered};

use ice_base::{NoMemory, to_u32};
use ice_cells::{Control, LogicCell, Run, control_at, first_control, piece, pieces_count};
use std::alloc::Global;

// Whether two flip-flops are driven alike.
fn is_same(a: Control, b: Control) -> bool
    ensures { result ≡ same_control a b }
{
    a == b
}

// Whether a flip-flop is driven otherwise than the first of its piece.
fn differs(first: Option<Control>, other: Option<Control>) -> bool
    ensures { result ≡ differs first other }
{
    match (first, other) {
        (Some(first), Some(other)) => !is_same(first, other),
        _ => false,
    }
}

// Appends the cells of a piece that their flip-flops leave.
fn push_piece_moves(
    moves: &mut Vec<u32>,
    cells: &[LogicCell],
    members: &[u32],
) -> Result<(), NoMemory>
    ensures { OnOk result (moves.new.items ≡ moves.old.items ++ piece_moves cells.now members.now) }
{
    let first = first_control(cells, members);
    for c in members {
        if differs(first, control_at(cells, *c)) {
            moves.push(*c)?;
        }
    }
    Ok(())
}

// Appends the cells of a run that their flip-flops leave.
fn push_run_moves(
    moves: &mut Vec<u32>,
    cells: &[LogicCell],
    members: &[u32],
) -> Result<(), NoMemory>
    ensures { OnOk result (moves.new.items ≡ moves.old.items ++ run_moves cells.now members.now) }
{
    for k in 0..pieces_count(members) {
        push_piece_moves(moves, cells, piece(members, k))?;
    }
    Ok(())
}

// The cells that their flip-flops leave, run by run and slot by slot.
pub(crate) fn find_moves(
    alloc: Global,
    cells: &[LogicCell],
    runs: &[Run],
) -> Result<Vec<u32>, NoMemory>
    ensures { IfOk result (λ found. found.items ≡ moves cells.now runs.now) }
{
    let mut found = Vec::new(alloc);
    for run in runs {
        push_run_moves(&mut found, cells, run.cells.as_slice())?;
    }
    Ok(found)
}

// The cells that flip-flops leave, each with the number of the cell that its flip-flop goes to, from this number on.
pub(crate) fn number_moves(
    alloc: Global,
    first: usize,
    movers: &[u32],
) -> Result<Vec<(u32, u32)>, NoMemory>
    ensures { IfOk result (λ pairs. pairs.items ≡ numbered first movers.now) }
{
    let mut pairs = Vec::new(alloc);
    let mut number = first;
    for c in movers {
        pairs.push((*c, to_u32(number)?))?;
        number += 1;
    }
    Ok(pairs)
}

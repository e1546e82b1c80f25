//! Cells in pieces of eight, as many as a tile has slots.
ghost use Rattle.std.specs.Prelude.{◌≡◌};
ghost use Rattle.ice_cells.specs.Pieces.{piece, pieces_count, control_at, first_control};

use crate::{Control, LogicCell};

/// Piece k of eight cells; the last may be shorter.
pub fn piece(cells: &[u32], k: usize) -> &[u32]
    ensures { result.now ≡ piece cells.now k }
{
    if k >= cells.len() / 8 + 1 {
        return &[];
    }
    let rest = &cells[8 * k..];
    if rest.len() < 8 {
        return rest;
    }
    &rest[..8]
}

/// How many pieces of eight there are.
pub fn pieces_count(cells: &[u32]) -> usize
    ensures { result ≡ pieces_count cells.now }
{
    cells.len().div_ceil(8)
}

/// How the flip-flop of a cell is driven, if it has one.
pub fn control_at(cells: &[LogicCell], c: u32) -> Option<Control>
    ensures { result ≡ control_at cells.now c }
{
    let cell = cells.get(c as usize)?;
    let (control, _) = cell.flop?;
    Some(control)
}

/// How the first flip-flop among cells is driven.
pub fn first_control(cells: &[LogicCell], members: &[u32]) -> Option<Control>
    ensures { result ≡ first_control cells.now members.now }
{
    for c in members {
        if let Some(control) = control_at(cells, *c) {
            return Some(control);
        }
    }
    None
}

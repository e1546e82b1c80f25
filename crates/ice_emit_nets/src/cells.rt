//! The sinks of cells and of what the flip-flops of a tile share.
ghost use Rattle.std.specs.Prelude.{◌≡◌, ◌++◌, map, slice_get, Some, OnOk};
ghost use Rattle.ice_place_defs.specs.Loads.{cell_loads, slot_gives, slots_give};
ghost use Rattle.ice_emit_nets.specs.Ends.{load_end, is_free, cell_ends, control_ends};

use crate::free::{input_wires, push_free};
use crate::pins::{TilePin, push_load};
use ice_base::{NoMemory, Sink, TileAt};
use ice_cells::{Control, LogicCell, Root};
use ice_chip::Chip;
use std::alloc::Global;

/// Whether the signals of a cell may arrive at any of its inputs: it has no carry, and takes none into its last input.
pub fn is_free(cell: &LogicCell) -> bool
    ensures { result ≡ is_free cell.now }
{
    !cell.carry && !cell.carry_to_in3
}

// Adds a sink for each input of a cell.
#[tactic(auto, using(crate::proofs::Targets::four_loads))]
fn push_bound(
    alloc: Global,
    ends: &mut Vec<(Root, Sink)>,
    chip: &Chip,
    tile: TileAt,
    i: usize,
    cell: &LogicCell,
) -> Result<(), NoMemory>
    ensures { OnOk result
        (ends.new.items ≡ ends.old.items ++ map (load_end chip.now) (cell_loads tile i cell.now)) }
{
    push_load(alloc, ends, chip, tile, TilePin::Input(i, 0), cell.ins[0])?;
    push_load(alloc, ends, chip, tile, TilePin::Input(i, 1), cell.ins[1])?;
    push_load(alloc, ends, chip, tile, TilePin::Input(i, 2), cell.ins[2])?;
    push_load(alloc, ends, chip, tile, TilePin::Input(i, 3), cell.ins[3])?;
    Ok(())
}

// Adds the sinks of a cell.
fn push_cell(
    alloc: Global,
    ends: &mut Vec<(Root, Sink)>,
    chip: &Chip,
    tile: TileAt,
    i: usize,
    cell: &LogicCell,
) -> Result<(), NoMemory>
    ensures { OnOk result (ends.new.items ≡ ends.old.items ++ cell_ends chip.now tile i cell.now) }
{
    if is_free(cell) {
        let targets = input_wires(alloc, chip, tile, i)?;
        push_free(alloc, ends, targets.as_slice(), &cell.ins)?;
        return Ok(());
    }
    push_bound(alloc, ends, chip, tile, i, cell)?;
    Ok(())
}

// The cell of a number.
fn cell_at(cells: &[LogicCell], c: u32) -> Option<LogicCell>
    ensures { result ≡ slice_get cells.now c }
{
    cells.get(c as usize).copied()
}

// Adds the sinks of the cell of a number.
fn push_numbered(
    alloc: Global,
    ends: &mut Vec<(Root, Sink)>,
    chip: &Chip,
    cells: &[LogicCell],
    tile: TileAt,
    i: usize,
    c: u32,
) -> Result<(), NoMemory>
    ensures { OnOk result (ends.new.items
        ≡ ends.old.items ++ slot_gives (cell_ends chip.now) cells.now tile i (Some c)) }
{
    match cell_at(cells, c) {
        None => Ok(()),
        Some(cell) => push_cell(alloc, ends, chip, tile, i, &cell),
    }
}

// Adds the sinks of the cell of a slot.
fn push_slot(
    alloc: Global,
    ends: &mut Vec<(Root, Sink)>,
    chip: &Chip,
    cells: &[LogicCell],
    tile: TileAt,
    i: usize,
    slot: Option<u32>,
) -> Result<(), NoMemory>
    ensures { OnOk result
        (ends.new.items ≡ ends.old.items ++ slot_gives (cell_ends chip.now) cells.now tile i slot) }
{
    match slot {
        None => Ok(()),
        Some(c) => push_numbered(alloc, ends, chip, cells, tile, i, c),
    }
}

// Adds the sinks of the cells of a tile.
pub(crate) fn push_slots(
    alloc: Global,
    ends: &mut Vec<(Root, Sink)>,
    chip: &Chip,
    cells: &[LogicCell],
    tile: TileAt,
    slots: &[Option<u32>],
) -> Result<(), NoMemory>
    ensures { OnOk result (ends.new.items
        ≡ ends.old.items ++ slots_give (cell_ends chip.now) cells.now tile 0 slots.now) }
{
    for (i, slot) in slots.iter().enumerate() {
        push_slot(alloc, ends, chip, cells, tile, i, *slot)?;
    }
    Ok(())
}

// Adds the sinks of a control set.
#[tactic(auto, using(crate::proofs::Targets::three_loads))]
fn push_set(
    alloc: Global,
    ends: &mut Vec<(Root, Sink)>,
    chip: &Chip,
    tile: TileAt,
    control: Control,
) -> Result<(), NoMemory>
    ensures { OnOk result
        (ends.new.items ≡ ends.old.items ++ control_ends chip.now tile (Some control)) }
{
    push_load(alloc, ends, chip, tile, TilePin::Clock, control.clock)?;
    push_load(alloc, ends, chip, tile, TilePin::Enable, control.enable)?;
    push_load(alloc, ends, chip, tile, TilePin::SetReset, control.reset)?;
    Ok(())
}

// Adds the sinks of what the flip-flops of a tile share.
pub(crate) fn push_control(
    alloc: Global,
    ends: &mut Vec<(Root, Sink)>,
    chip: &Chip,
    tile: TileAt,
    control: Option<Control>,
) -> Result<(), NoMemory>
    ensures { OnOk result (ends.new.items ≡ ends.old.items ++ control_ends chip.now tile control) }
{
    match control {
        None => Ok(()),
        Some(control) => push_set(alloc, ends, chip, tile, control),
    }
}

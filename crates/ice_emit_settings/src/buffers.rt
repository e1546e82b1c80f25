//! The column buffers of the globals that wanted rows take.
ghost use Rattle.std.specs.Prelude.{◌≡◌, ◌++◌, [], flat_map, OnOk};
ghost use Rattle.std.specs.Option.{option_map_or};
ghost use Rattle.ice_emit_defs.specs.Functions.{buffer_at, global_settings, buffer_settings};
ghost use Rattle.ice_emit_settings.specs.Buffers.{row_buffers, global_wires};
ghost use Rattle.ice_emit_settings.specs.Views.{views, switches};

use crate::globals::{global_wires, may_be_global};
use crate::making::push;
use ice_base::{NoMemory, RowNo, TileAt};
use ice_chip::{Chip, TileFunction};
use ice_decode::global_at;
use ice_emit_bits::Setting;
use std::alloc::Global;

// Adds the column buffer of a global, if a tile has it.
fn push_served(
    made: &mut Vec<Setting>,
    tile: TileAt,
    global: u8,
    served: Option<TileAt>,
) -> Result<(), NoMemory>
    ensures { OnOk result (views made.new.items
        ≡ views made.old.items ++ option_map_or (buffer_at tile global) served []) }
{
    match served {
        None => Ok(()),
        Some(served) => push(made, served, TileFunction::ColumnBuffer(global), 0),
    }
}

// Adds the column buffer through which a global comes to a tile.
fn push_global(
    made: &mut Vec<Setting>,
    chip: &Chip,
    tile: TileAt,
    global: Option<u8>,
) -> Result<(), NoMemory>
    ensures { OnOk result
        (views made.new.items ≡ views made.old.items ++ global_settings chip.now tile global) }
{
    match global {
        None => Ok(()),
        Some(global) => push_served(made, tile, global, chip.colbuf_of(tile)),
    }
}

// Adds the column buffer of a row, if it comes from a global. Of the wires that have no name of one no name is looked up.
#[tactic(auto, using(crate::proofs::Buffered::row_buffers_are, crate::proofs::Buffered::no_row_buffers, crate::proofs::Buffered::unnamed_buffers))]
fn push_buffer(
    made: &mut Vec<Setting>,
    chip: &Chip,
    known: &[bool],
    row: RowNo,
) -> Result<(), NoMemory>
    requires { known.now ≡ global_wires chip.now }
    ensures { OnOk result
        (views made.new.items ≡ views made.old.items ++ row_buffers chip.now row) }
{
    if row.0 >= chip.rows() {
        return Ok(());
    }
    let (group, found) = chip.row(row);
    if !may_be_global(chip, known, found.source) {
        return Ok(());
    }
    push_global(
        made,
        chip,
        group.tile,
        global_at(chip, group.tile, found.source),
    )?;
    Ok(())
}

// Adds the column buffers of rows, by the table of the wires of globals.
fn push_rows(
    made: &mut Vec<Setting>,
    chip: &Chip,
    known: &[bool],
    rows: &[RowNo],
) -> Result<(), NoMemory>
    requires { known.now ≡ global_wires chip.now }
    ensures { OnOk result (views made.new.items ≡ views made.old.items
        ++ flat_map (buffer_settings chip.now) (switches chip.now rows.now)) }
{
    for k in 0..rows.len() {
        push_buffer(made, chip, known, rows[k])?;
    }
    Ok(())
}

/// Adds the column buffers of rows that come from a global; a number that no row has adds none.
///
/// # Errors
/// Want of memory alone; some of them may be added then.
pub fn push_buffers(
    alloc: Global,
    made: &mut Vec<Setting>,
    chip: &Chip,
    rows: &[RowNo],
) -> Result<(), NoMemory>
    ensures { OnOk result (views made.new.items ≡ views made.old.items
        ++ flat_map (buffer_settings chip.now) (switches chip.now rows.now)) }
{
    let known = global_wires(alloc, chip)?;
    push_rows(made, chip, &known, rows)
}

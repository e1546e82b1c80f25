//! The settings of cells.
ghost use Rattle.std.specs.Prelude.{◌≡◌, ◌<◌, ◌++◌, OnOk};
ghost use Rattle.ice_chip.specs.Names.{cell_function};
ghost use Rattle.ice_net.specs.Meaning.{table_bit};
ghost use Rattle.ice_emit_defs.specs.Functions.{setting_if, table_settings, reset_settings, flop_settings};
ghost use Rattle.ice_emit_settings.specs.Cells.{entry_settings};
ghost use Rattle.ice_emit_settings.specs.Views.{views};

use crate::making::{push, push_if};
use ice_base::{NoMemory, TileAt};
use ice_cells::{Control, LogicCell};
use ice_chip::TileFunction;
use ice_emit_bits::Setting;
use ice_lut::entry_place;
use ice_net::Reset;

// The bit that enables the carry.
const CARRY: u8 = 8;

// The bit with which the cell's output is its flip-flop's.
const FLOP: u8 = 9;

// The bit with which the flip-flop is set and not reset.
const SET: u8 = 18;

// The bit with which that comes at once, and not with the clock.
const AT_ONCE: u8 = 19;

// A digit of a number, the lowest at place 0.
fn digit(number: u16, place: u8) -> bool
    requires { place < 16 }
    ensures { result ≡ table_bit number place }
{
    (number >> u16::from(place)) & 1 == 1
}

// Adds an entry of a table, where it is 1.
fn push_entry(
    made: &mut Vec<Setting>,
    tile: TileAt,
    cell: u8,
    table: u16,
    entry: u8,
) -> Result<(), NoMemory>
    requires { entry < 16 }
    ensures { OnOk result (views made.new.items
        ≡ views made.old.items ++ entry_settings tile (cell_function cell) table entry) }
{
    let place = entry_place(entry);
    push_if(
        made,
        digit(table, entry),
        tile,
        TileFunction::Cell(cell),
        place,
    )?;
    Ok(())
}

// Adds the entries of a table that are 1.
fn push_table(made: &mut Vec<Setting>, tile: TileAt, cell: u8, table: u16) -> Result<(), NoMemory>
    ensures { OnOk result (views made.new.items
        ≡ views made.old.items ++ table_settings tile (cell_function cell) table) }
{
    for entry in 0..16u8 {
        push_entry(made, tile, cell, table, entry)?;
    }
    Ok(())
}

// Adds how a flip-flop is set or reset.
fn push_reset(made: &mut Vec<Setting>, tile: TileAt, cell: u8, reset: Reset) -> Result<(), NoMemory>
    ensures { OnOk result (views made.new.items
        ≡ views made.old.items ++ reset_settings tile (cell_function cell) reset) }
{
    match reset {
        Reset::Nothing | Reset::SyncReset => Ok(()),
        Reset::AsyncReset => push(made, tile, TileFunction::Cell(cell), AT_ONCE),
        Reset::SyncSet => push(made, tile, TileFunction::Cell(cell), SET),
        Reset::AsyncSet => {
            push(made, tile, TileFunction::Cell(cell), SET)?;
            push(made, tile, TileFunction::Cell(cell), AT_ONCE)?;
            Ok(())
        }
    }
}

// Adds the flip-flop of a cell, if it has one.
fn push_flop(
    made: &mut Vec<Setting>,
    tile: TileAt,
    cell: u8,
    flop: Option<(Control, Reset)>,
) -> Result<(), NoMemory>
    ensures { OnOk result (views made.new.items
        ≡ views made.old.items ++ flop_settings tile (cell_function cell) flop) }
{
    let Some((_, reset)) = flop else {
        return Ok(());
    };
    push(made, tile, TileFunction::Cell(cell), FLOP)?;
    push_reset(made, tile, cell, reset)?;
    Ok(())
}

/// Adds the settings of a cell in a slot, with this table: the entries that are 1, the carry and the flip-flop where they are in use, and
/// how that is set or reset. Of the slot's number its last digit names the bits.
///
/// # Errors
/// Want of memory alone; some of them may be added then.
pub fn push_cell(
    made: &mut Vec<Setting>,
    tile: TileAt,
    cell: u8,
    table: u16,
    logic: &LogicCell,
) -> Result<(), NoMemory>
    ensures { OnOk result (views made.new.items
        ≡ views made.old.items ++ (table_settings tile (cell_function cell) table
        ++ setting_if logic.now.carry tile (cell_function cell) 8
        ++ flop_settings tile (cell_function cell) logic.now.flop)) }
{
    push_table(made, tile, cell, table)?;
    push_if(made, logic.carry, tile, TileFunction::Cell(cell), CARRY)?;
    push_flop(made, tile, cell, logic.flop)?;
    Ok(())
}

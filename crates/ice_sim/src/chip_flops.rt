//! The flip-flops of a configured chip.
ghost use Rattle.std.specs.Prelude.{◌≡◌, ◌++◌, [], length, OnOk};
ghost use Rattle.std.specs.List.{flat_map};
ghost use Rattle.ice_bits.specs.Configuration.{bits_of};
ghost use Rattle.ice_decode.specs.Cells.{reset_of};
ghost use Rattle.ice_decode.specs.Pads.{cell_store};
ghost use Rattle.ice_sim.specs.Layouts.{cell_stores, keeper_of, store_feeds, store_keepers, feeds_from, keepers_from};

use crate::configured::ConfiguredChip;
use crate::gates::{cell_gate, table};
use crate::stores::small;
use ice_base::{NoMemory, TileAt};
use ice_decode::{cell_bit, has_flop, reset_by, setting};
use ice_net::Reset;
use ice_sim_sweep::{Feed, Keeper};

// Which way the flip-flop of a cell is set or reset.
fn reset(configured: &ConfiguredChip<'_>, tile: TileAt, cell: u8) -> Reset
    ensures { result
        ≡ reset_of configured.now.parts (bits_of configured.now.configuration) tile cell }
{
    let set = cell_bit(configured.chip(), configured.bits(), tile, cell, 18);
    let at_once = cell_bit(configured.chip(), configured.bits(), tile, cell, 19);
    reset_by(set, at_once)
}

// The flip-flop of a cell of a tile, which is the cell of this place, and whose table has the slot `datum`.
fn keeper(
    configured: &ConfiguredChip<'_>,
    slots: &[u32],
    place: u32,
    datum: u32,
    tile: TileAt,
    cell: u8,
) -> Keeper
    ensures { result ≡ keeper_of configured.now.parts (bits_of configured.now.configuration)
        slots.now place datum (tile, cell) }
{
    Keeper {
        cell: place,
        clock: configured.pin_slot(0, slots, tile, b"lutff_global/clk"),
        datum,
        enable: configured.pin_slot(1, slots, tile, b"lutff_global/cen"),
        set: configured.pin_slot(0, slots, tile, b"lutff_global/s_r"),
        falling: setting(configured.chip(), configured.bits(), tile, b"NegClk", 0),
        reset: reset(configured, tile, cell),
    }
}

// Adds the flip-flop of the cell of a place, if it has one.
fn add_flop(
    configured: &ConfiguredChip<'_>,
    slots: &[u32],
    place: usize,
    cell: (TileAt, u8),
    feeds: &mut Vec<Feed>,
    keepers: &mut Vec<Keeper>,
) -> Result<(), NoMemory>
    ensures feeds { OnOk result (feeds.new.items
        ≡ feeds.old.items ++ store_feeds configured.now.parts (bits_of configured.now.configuration)
        configured.now.bonded slots.now (length feeds.old.items) (cell_store cell)) }
    ensures keepers { OnOk result (keepers.new.items ≡ keepers.old.items
        ++ store_keepers configured.now.parts (bits_of configured.now.configuration) slots.now place
        (length feeds.old.items) (cell_store cell)) }
{
    let (tile, number) = cell;
    if !has_flop(configured.chip(), configured.bits(), tile, number) {
        return Ok(());
    }
    let next = small(feeds.len())?;
    let place = small(place)?;
    let table = table(configured, tile, number);
    feeds.push(Feed::Made(cell_gate(configured, slots, table, tile, number, next)))?;
    keepers.push(keeper(configured, slots, place, next, tile, number))?;
    Ok(())
}

/// Adds the flip-flops of these cells, and what feeds the slots of their tables. It fails for want of memory alone; more than 2^32
/// slots or cells count as that.
pub(crate) fn add_flops(
    configured: &ConfiguredChip<'_>,
    slots: &[u32],
    cells: &[(TileAt, u8)],
    feeds: &mut Vec<Feed>,
    keepers: &mut Vec<Keeper>,
) -> Result<(), NoMemory>
    requires { keepers.old.items ≡ [] }
    ensures feeds { OnOk result (feeds.new.items
        ≡ feeds.old.items ++ feeds_from configured.now.parts (bits_of configured.now.configuration)
        configured.now.bonded slots.now (length feeds.old.items) (flat_map cell_stores cells.now)) }
    ensures keepers { OnOk result (keepers.new.items ≡ keepers_from configured.now.parts
        (bits_of configured.now.configuration) configured.now.bonded slots.now 0
        (length feeds.old.items) (flat_map cell_stores cells.now)) }
{
    for (place, cell) in cells.iter().enumerate() {
        add_flop(configured, slots, place, *cell, feeds, keepers)?;
    }
    Ok(())
}

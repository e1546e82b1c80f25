//! The tables of a configured chip, over slots.
ghost use Rattle.std.specs.Prelude.{◌≡◌, ◌<◌, ◌∷◌, [], map, if◌then◌else◌};
ghost use Rattle.ice_base_values.specs.System.{reading};
ghost use Rattle.ice_bits.specs.Configuration.{bits_of};
ghost use Rattle.ice_net.specs.Meaning.{number_of};
ghost use Rattle.ice_decode.specs.Cells.{cell_bit};
ghost use Rattle.ice_chip.specs.Names.{input_name};
ghost use Rattle.ice_decode.specs.Reads.{carry_into};
ghost use Rattle.ice_sim.specs.ChipSlots.{slot_in, pin_slot, table_of, cell_gate, carry_gate};

use crate::configured::ConfiguredChip;
use ice_base::TileAt;
use ice_chip::input_name;
use ice_decode::{Point, cell_bit};
use ice_sim_sweep::Gate;

// The table of the majority of the first three inputs.
const MAJORITY: u16 = 0xe8;

// A bit of a cell, as a number.
fn digit(configured: &ConfiguredChip<'_>, tile: TileAt, cell: u8, place: usize) -> u16
    ensures { result
        ≡ (if cell_bit configured.now.parts (bits_of configured.now.configuration) tile cell place
        then 1 else 0) }
{
    u16::from(cell_bit(configured.chip(), configured.bits(), tile, cell, place))
}

// The number of four bits of a cell, the first the lowest.
fn digits(
    configured: &ConfiguredChip<'_>,
    tile: TileAt,
    cell: u8,
    first: usize,
    second: usize,
    third: usize,
    fourth: usize,
) -> u16
    ensures value { result ≡ number_of
        (map (cell_bit configured.now.parts (bits_of configured.now.configuration) tile cell)
        (first ∷ second ∷ third ∷ fourth ∷ [])) }
    ensures small { result < 16 }
{
    let lower = digit(configured, tile, cell, first) + 2 * digit(configured, tile, cell, second);
    let upper = digit(configured, tile, cell, third) + 2 * digit(configured, tile, cell, fourth);
    lower + 4 * upper
}

/// The table of a cell: bit j is its entry for the inputs that make the number j.
pub(crate) fn table(configured: &ConfiguredChip<'_>, tile: TileAt, cell: u8) -> u16
    ensures { result
        ≡ table_of configured.now.parts (bits_of configured.now.configuration) tile cell }
{
    let first = digits(configured, tile, cell, 4, 14, 15, 5);
    let second = digits(configured, tile, cell, 6, 16, 17, 7);
    let third = digits(configured, tile, cell, 3, 13, 12, 2);
    let fourth = digits(configured, tile, cell, 1, 11, 10, 0);
    first + 16 * (second + 16 * (third + 16 * fourth))
}

// The slot of an input of a cell.
fn input_slot(
    configured: &ConfiguredChip<'_>,
    slots: &[u32],
    tile: TileAt,
    cell: u8,
    input: u8,
) -> u32
    ensures { result ≡ pin_slot 0 configured.now.parts slots.now tile (input_name cell input) }
{
    configured.pin_slot(0, slots, tile, &input_name(cell, input))
}

/// The table of a cell over slots, where `table` is that table.
pub(crate) fn cell_gate(
    configured: &ConfiguredChip<'_>,
    slots: &[u32],
    table: u16,
    tile: TileAt,
    cell: u8,
    out: u32,
) -> Gate
    requires { table
        ≡ table_of configured.now.parts (bits_of configured.now.configuration) tile cell }
    ensures { result ≡ cell_gate configured.now.parts (bits_of configured.now.configuration)
        slots.now out tile cell }
{
    Gate {
        table,
        first: input_slot(configured, slots, tile, cell, 0),
        second: input_slot(configured, slots, tile, cell, 1),
        third: input_slot(configured, slots, tile, cell, 2),
        fourth: input_slot(configured, slots, tile, cell, 3),
        out,
    }
}

// The slot of the carry into a cell.
fn carry_into(configured: &ConfiguredChip<'_>, slots: &[u32], tile: TileAt, cell: u8) -> u32
    ensures { result ≡ reading 0 (slot_in configured.now.parts slots.now)
        (carry_into configured.now.parts tile cell) }
{
    if cell == 0 {
        return configured.pin_slot(0, slots, tile, b"carry_in_mux");
    }
    let before = Point::Carry {
        tile,
        cell: cell - 1,
    };
    configured.slot_in(slots, before)
}

/// The carry of a cell over slots.
pub(crate) fn carry_gate(
    configured: &ConfiguredChip<'_>,
    slots: &[u32],
    tile: TileAt,
    cell: u8,
    out: u32,
) -> Gate
    ensures { result ≡ carry_gate configured.now.parts slots.now out tile cell }
{
    Gate {
        table: MAJORITY,
        first: input_slot(configured, slots, tile, cell, 1),
        second: input_slot(configured, slots, tile, cell, 2),
        third: carry_into(configured, slots, tile, cell),
        fourth: 0,
        out,
    }
}

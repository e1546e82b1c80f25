//! The registers of the pads of a configured chip.
ghost use Rattle.std.specs.Prelude.{◌≡◌, ◌++◌, length, OnOk};
ghost use Rattle.std.specs.List.{flat_map};
ghost use Rattle.ice_bits.specs.Configuration.{bits_of};
ghost use Rattle.ice_decode.specs.Pads.{pad_stores, InputStore, OutputStore};
ghost use Rattle.ice_sim.specs.Layouts.{register_of, input_feed, store_feeds, store_keepers, feeds_from, keepers_from};

use crate::configured::ConfiguredChip;
use crate::stores::small;
use ice_base::{NoMemory, TileAt};
use ice_chip::{Pad, pad_output_name};
use ice_decode::{has_input_register, has_output_register, is_enabled};
use ice_net::Reset;
use ice_sim_sweep::{Feed, Keeper};

// A register of a pad of a tile, at a place among the stores, whose clock has this name, and whose datum the slot `datum`.
fn register(
    configured: &ConfiguredChip<'_>,
    slots: &[u32],
    place: u32,
    datum: u32,
    tile: TileAt,
    clock: &[u8],
) -> Keeper
    ensures { result ≡ register_of configured.now.parts slots.now place datum tile clock.now }
{
    Keeper {
        cell: place,
        clock: configured.pin_slot(0, slots, tile, clock),
        datum,
        enable: configured.pin_slot(1, slots, tile, b"io_global/cen"),
        set: 0,
        falling: false,
        reset: Reset::Nothing,
    }
}

// What a pad gives to its register.
fn input_feed(configured: &ConfiguredChip<'_>, pad: Pad) -> Feed
    ensures { result ≡ input_feed configured.now.parts (bits_of configured.now.configuration)
        configured.now.bonded pad }
{
    if !is_enabled(configured.chip(), configured.bits(), pad) {
        return Feed::Nothing;
    }
    match configured.pad_place(pad) {
        None => Feed::Nothing,
        Some(place) => Feed::Port(place),
    }
}

// Adds the register that takes what a pad gives, if the pad has it.
fn add_input(
    configured: &ConfiguredChip<'_>,
    slots: &[u32],
    place: u32,
    pad: Pad,
    feeds: &mut Vec<Feed>,
    keepers: &mut Vec<Keeper>,
) -> Result<(), NoMemory>
    ensures feeds { OnOk result (feeds.new.items
        ≡ feeds.old.items ++ store_feeds configured.now.parts (bits_of configured.now.configuration)
        configured.now.bonded slots.now (length feeds.old.items) (InputStore pad)) }
    ensures keepers { OnOk result (keepers.new.items ≡ keepers.old.items
        ++ store_keepers configured.now.parts (bits_of configured.now.configuration) slots.now place
        (length feeds.old.items) (InputStore pad)) }
{
    if !has_input_register(configured.chip(), configured.bits(), pad) {
        return Ok(());
    }
    let next = small(feeds.len())?;
    feeds.push(input_feed(configured, pad))?;
    keepers.push(register(configured, slots, place, next, pad.tile, b"io_global/inclk"))?;
    Ok(())
}

// Adds the register that a pad is driven with, if the pad has it.
fn add_output(
    configured: &ConfiguredChip<'_>,
    slots: &[u32],
    place: u32,
    pad: Pad,
    keepers: &mut Vec<Keeper>,
) -> Result<(), NoMemory>
    ensures { OnOk result
        (keepers.new.items ≡ keepers.old.items ++ store_keepers configured.now.parts
        (bits_of configured.now.configuration) slots.now place 0 (OutputStore pad)) }
{
    if !has_output_register(configured.chip(), configured.bits(), pad) {
        return Ok(());
    }
    let datum = configured.pin_slot(0, slots, pad.tile, &pad_output_name(pad.pio));
    keepers.push(register(
        configured,
        slots,
        place,
        datum,
        pad.tile,
        b"io_global/outclk",
    ))?;
    Ok(())
}

// Adds the registers of a pad, of which the first is the store of this place.
fn add_registers_of(
    configured: &ConfiguredChip<'_>,
    slots: &[u32],
    place: u32,
    pad: Pad,
    feeds: &mut Vec<Feed>,
    keepers: &mut Vec<Keeper>,
) -> Result<(), NoMemory>
    ensures feeds { OnOk result (feeds.new.items
        ≡ feeds.old.items ++ feeds_from configured.now.parts (bits_of configured.now.configuration)
        configured.now.bonded slots.now (length feeds.old.items) (pad_stores pad)) }
    ensures keepers { OnOk result (keepers.new.items ≡ keepers.old.items
        ++ keepers_from configured.now.parts (bits_of configured.now.configuration)
        configured.now.bonded slots.now place (length feeds.old.items) (pad_stores pad)) }
{
    let second = small(place as usize + 1)?;
    add_input(configured, slots, place, pad, feeds, keepers)?;
    add_output(configured, slots, second, pad, keepers)?;
    Ok(())
}

/// Adds the registers of these pads, of which the first has its first register at the place `first` among the stores, and what feeds
/// the slots of their data. It fails for want of memory alone; more than 2^32 slots, pads or stores count as that.
pub(crate) fn add_registers(
    configured: &ConfiguredChip<'_>,
    slots: &[u32],
    first: u32,
    pads: &[Pad],
    feeds: &mut Vec<Feed>,
    keepers: &mut Vec<Keeper>,
) -> Result<(), NoMemory>
    ensures feeds { OnOk result (feeds.new.items
        ≡ feeds.old.items ++ feeds_from configured.now.parts (bits_of configured.now.configuration)
        configured.now.bonded slots.now (length feeds.old.items) (flat_map pad_stores pads.now)) }
    ensures keepers { OnOk result (keepers.new.items ≡ keepers.old.items ++ keepers_from
        configured.now.parts (bits_of configured.now.configuration) configured.now.bonded slots.now
        first (length feeds.old.items) (flat_map pad_stores pads.now)) }
{
    for (number, pad) in pads.iter().enumerate() {
        let number = small(number)?;
        let place = small(first as usize + 2 * number as usize)?;
        add_registers_of(configured, slots, place, *pad, feeds, keepers)?;
    }
    Ok(())
}

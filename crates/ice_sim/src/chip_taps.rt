//! What the pads of a configured chip drive.
ghost use Rattle.std.specs.Prelude.{◌≡◌, ◌<◌, ◌++◌, [], length, map, OnOk};
ghost use Rattle.ice_bits.specs.Configuration.{bits_of};
ghost use Rattle.ice_sim.specs.Layouts.{output_feed, part_tap, io_tap, ram_enable_slot, ram_tap, pad_tap, taps_from};

use crate::configured::ConfiguredChip;
use crate::stores::small;
use ice_base::{NoMemory, TileAt};
use ice_chip::{Pad, RAM_WIRES, output_enable_name, pad_output_name, ram_name};
use ice_decode::{has_output_register, pin_type};
use ice_sim_sweep::{Feed, Tap};

// What drives a pad, by its output part, where `own` is the slot of what its register keeps.
fn part_tap(part: u8, own: u32, level: u32, enable: u32) -> Tap
    ensures { result ≡ part_tap part own level enable }
{
    match part {
        0b0101 => Tap {
            level: own,
            enable: 1,
        },
        0b0110 => Tap { level, enable: 1 },
        0b1010 => Tap { level, enable },
        _ => Tap {
            level: 0,
            enable: 0,
        },
    }
}

// What drives a pad of an IO tile.
fn io_tap(configured: &ConfiguredChip<'_>, slots: &[u32], own: u32, pad: Pad) -> Tap
    ensures { result
        ≡ io_tap configured.now.parts (bits_of configured.now.configuration) slots.now own pad }
{
    let level = configured.pin_slot(0, slots, pad.tile, &pad_output_name(pad.pio));
    let enable = configured.pin_slot(0, slots, pad.tile, &output_enable_name(pad.pio));
    part_tap(
        pin_type(configured.chip(), configured.bits(), pad) / 4,
        own,
        level,
        enable,
    )
}

// The slot of whether the pin of this number of a block RAM is driven.
fn ram_enable_slot(configured: &ConfiguredChip<'_>, slots: &[u32], tile: TileAt, wire: u8) -> u32
    ensures { result ≡ ram_enable_slot configured.now.parts slots.now tile wire }
{
    if wire == 72 {
        return configured.pin_slot(1, slots, tile, ram_name(74));
    }
    if wire == 73 {
        return configured.pin_slot(1, slots, tile, ram_name(75));
    }
    1
}

// What drives the pin of this number of a block RAM.
fn ram_tap(configured: &ConfiguredChip<'_>, slots: &[u32], tile: TileAt, wire: u8) -> Tap
    requires { wire < 76 }
    ensures { result ≡ ram_tap configured.now.parts slots.now tile wire }
{
    Tap {
        level: configured.pin_slot(0, slots, tile, ram_name(wire)),
        enable: ram_enable_slot(configured, slots, tile, wire),
    }
}

// What drives a pad: pads 0 and 1 are those of IO tiles, and the pins of a block RAM follow.
fn pad_tap(configured: &ConfiguredChip<'_>, slots: &[u32], own: u32, pad: Pad) -> Tap
    ensures { result
        ≡ pad_tap configured.now.parts (bits_of configured.now.configuration) slots.now own pad }
{
    if pad.pio < 2 {
        return io_tap(configured, slots, own, pad);
    }
    if pad.pio < RAM_WIRES + 2 {
        return ram_tap(configured, slots, pad.tile, pad.pio - 2);
    }
    Tap {
        level: 0,
        enable: 0,
    }
}

// What a pad is driven with that is driven with what a register keeps.
fn output_feed(configured: &ConfiguredChip<'_>, pad: Pad) -> Feed
    ensures { result ≡ output_feed configured.now.parts (bits_of configured.now.configuration) pad }
{
    if has_output_register(configured.chip(), configured.bits(), pad) {
        configured.register_feed(pad, 1)
    } else {
        Feed::Nothing
    }
}

/// Adds what drives each of the pads that are seen, and what feeds the slots of their registers. It fails for want of memory alone; more than
/// 2^32 slots count as that.
pub(crate) fn add_taps(
    configured: &ConfiguredChip<'_>,
    slots: &[u32],
    feeds: &mut Vec<Feed>,
    taps: &mut Vec<Tap>,
) -> Result<(), NoMemory>
    requires { taps.old.items ≡ [] }
    ensures feeds { OnOk result (feeds.new.items ≡ feeds.old.items
        ++ map (output_feed configured.now.parts (bits_of configured.now.configuration))
        configured.now.bonded) }
    ensures taps { OnOk result
        (taps.new.items ≡ taps_from configured.now.parts (bits_of configured.now.configuration)
        slots.now (length feeds.old.items) configured.now.bonded) }
{
    for pad in configured.pads() {
        let own = small(feeds.len())?;
        feeds.push(output_feed(configured, *pad))?;
        taps.push(pad_tap(configured, slots, own, *pad))?;
    }
    Ok(())
}

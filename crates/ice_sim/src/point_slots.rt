//! What gives each point of a configured chip its level.
ghost use Rattle.std.specs.Prelude.{◌≡◌, ◌<◌, [], codes, if◌then◌else◌};
ghost use Rattle.ice_base_values.specs.System.{reading};
ghost use Rattle.ice_bits.specs.Configuration.{bits_of};
ghost use Rattle.ice_decode.specs.Drivers.{driver, role_of};
ghost use Rattle.ice_decode.specs.Reads.{global_feed};
ghost use Rattle.ice_decode.specs.Points.{HasWire};
ghost use Rattle.ice_decode.specs.Meaning.{passes};
ghost use Rattle.ice_bits.specs.Settings.{set_at};
ghost use Rattle.ice_decode.specs.declared.point.Point.TheVariants.{Wire};
ghost use Rattle.ice_decode.specs.declared.role.Role.TheVariants.{Output, PadInput, Global};
ghost use Rattle.ice_sim.specs.ChipSlots.{slot_in, kept_slot, table_slot, pad_place, level_slot, pad_slot, fed_slot, role_slot, driven_slot, point_slot};

use crate::configured::ConfiguredChip;
use crate::gates::{carry_gate, cell_gate, table};
use crate::points::PointSlot;
use ice_base::{TileAt, WireNo};
use ice_chip::Pad;
use ice_decode::{
    Driver, Point, Role, Switch, has_carry, has_flop, has_input_register, is_enabled, passes,
    role_of, setting,
};
use ice_sim_sweep::Feed;

// The slot of a table, which has none of its own where it is always 0.
fn table_slot(
    configured: &ConfiguredChip<'_>,
    slots: &[u32],
    next: u32,
    tile: TileAt,
    cell: u8,
) -> PointSlot
    ensures { result ≡ table_slot configured.now.parts (bits_of configured.now.configuration)
        slots.now next tile cell }
{
    let table = table(configured, tile, cell);
    if table == 0 {
        return PointSlot::Shared(0);
    }
    PointSlot::Own(Feed::Made(cell_gate(configured, slots, table, tile, cell, next)))
}

// The slot of what the cell at a place keeps.
fn kept_slot(place: Option<usize>) -> PointSlot
    ensures { result ≡ kept_slot place }
{
    match place {
        None => PointSlot::Shared(0),
        Some(place) => PointSlot::Own(Feed::Kept(place)),
    }
}

// The slot of the level at a place.
fn level_slot(place: Option<usize>) -> PointSlot
    ensures { result ≡ level_slot place }
{
    match place {
        None => PointSlot::Shared(0),
        Some(place) => PointSlot::Own(Feed::Port(place)),
    }
}

// The slot of the input of a pad.
fn pad_slot(configured: &ConfiguredChip<'_>, pad: Pad) -> PointSlot
    ensures { result ≡ pad_slot configured.now.parts (bits_of configured.now.configuration)
        configured.now.bonded pad }
{
    if !is_enabled(configured.chip(), configured.bits(), pad) {
        return PointSlot::Shared(0);
    }
    level_slot(configured.pad_place(pad))
}

// The slot of the output of a cell.
fn output_slot(
    configured: &ConfiguredChip<'_>,
    slots: &[u32],
    next: u32,
    tile: TileAt,
    cell: u8,
) -> PointSlot
    ensures { result ≡ role_slot configured.now.parts (bits_of configured.now.configuration)
        configured.now.configuration.extras configured.now.bonded slots.now
        next (Output tile cell) }
{
    if has_flop(configured.chip(), configured.bits(), tile, cell) {
        return kept_slot(configured.cell_place(tile, cell));
    }
    table_slot(configured, slots, next, tile, cell)
}

// The slot of the level of the wire of a pad, which is what the pad gives, or what a register kept of it.
fn input_slot(configured: &ConfiguredChip<'_>, pad: Pad) -> PointSlot
    ensures { result ≡ role_slot configured.now.parts (bits_of configured.now.configuration) []
        configured.now.bonded [] 0 (PadInput pad) }
{
    if has_input_register(configured.chip(), configured.bits(), pad) {
        return PointSlot::Own(configured.register_feed(pad, 0));
    }
    pad_slot(configured, pad)
}

// The slot of the level of an output of a block RAM, which is that of its pin.
fn ram_slot(configured: &ConfiguredChip<'_>, pad: Pad) -> PointSlot
    ensures { result ≡ level_slot (pad_place configured.now.bonded pad) }
{
    level_slot(configured.pad_place(pad))
}

// The slot of the level of the pad that feeds a global.
fn fed_slot(configured: &ConfiguredChip<'_>, pad: Option<Pad>) -> PointSlot
    ensures { result ≡ fed_slot configured.now.parts (bits_of configured.now.configuration)
        configured.now.bonded pad }
{
    match pad {
        None => PointSlot::Shared(0),
        Some(pad) => pad_slot(configured, pad),
    }
}

// The slot of what feeds a global from a tile.
fn fabout_slot(configured: &ConfiguredChip<'_>, slots: &[u32], global: u8) -> u32
    ensures { result ≡ reading 0 (slot_in configured.now.parts slots.now)
        (global_feed configured.now.parts global) }
{
    match configured.chip().global_of(global) {
        None => 0,
        Some(tile) => configured.pin_slot(0, slots, tile, b"fabout"),
    }
}

// The slot of a global.
fn global_slot(configured: &ConfiguredChip<'_>, slots: &[u32], global: u8) -> PointSlot
    ensures { result ≡ role_slot configured.now.parts (bits_of configured.now.configuration)
        configured.now.configuration.extras configured.now.bonded slots.now 0 (Global global) }
{
    if configured.takes_pad(global) {
        return fed_slot(configured, configured.chip().gbufpin_of(global));
    }
    PointSlot::Shared(fabout_slot(configured, slots, global))
}

// The slot of the carry into a tile where no row that is on leads there.
fn carry_in_slot(configured: &ConfiguredChip<'_>, tile: TileAt) -> u32
    ensures { result ≡ (if set_at configured.now.parts (bits_of configured.now.configuration) tile
        (codes "CarryInSet") 0
        then 1 else 0) }
{
    u32::from(setting(configured.chip(), configured.bits(), tile, b"CarryInSet", 0))
}

// The slot of a wire without a row that is on.
fn role_slot(configured: &ConfiguredChip<'_>, slots: &[u32], next: u32, role: Role) -> PointSlot
    ensures { result ≡ role_slot configured.now.parts (bits_of configured.now.configuration)
        configured.now.configuration.extras configured.now.bonded slots.now next role }
{
    match role {
        Role::Plain => PointSlot::Shared(0),
        Role::Output { tile, cell } => output_slot(configured, slots, next, tile, cell),
        Role::LookUp { tile, cell } => table_slot(configured, slots, next, tile, cell),
        Role::CarryOut { tile, cell } => {
            PointSlot::Shared(configured.slot_in(slots, Point::Carry { tile, cell }))
        }
        Role::PadInput(pad) => input_slot(configured, pad),
        Role::RamOutput(pad) => ram_slot(configured, pad),
        Role::Global(global) => global_slot(configured, slots, global),
        Role::CarryIn(tile) => PointSlot::Shared(carry_in_slot(configured, tile)),
        Role::ClockEnable => PointSlot::Shared(1),
    }
}

// The slot of what a row of switches that is on gives.
fn switch_slot(configured: &ConfiguredChip<'_>, slots: &[u32], switch: Switch) -> u32
    requires { switch.source.0 < configured.now.parts.wires }
    ensures { result ≡ (if passes configured.now.parts (bits_of configured.now.configuration) switch
        then slot_in configured.now.parts slots.now (Wire switch.source) else 0) }
{
    if passes(configured.chip(), configured.bits(), &switch) {
        configured.slot_in(slots, Point::Wire(switch.source))
    } else {
        0
    }
}

// The slot of a wire of the chip.
fn wire_slot(configured: &ConfiguredChip<'_>, slots: &[u32], next: u32, wire: WireNo) -> PointSlot
    requires { wire.0 < configured.now.parts.wires }
    ensures { result ≡ driven_slot configured.now.parts (bits_of configured.now.configuration)
        configured.now.configuration.extras configured.now.bonded slots.now next
        (role_of configured.now.parts wire.0)
        (driver configured.now.parts (bits_of configured.now.configuration) wire.0) }
{
    match configured.driver(wire) {
        Driver::Nothing => role_slot(configured, slots, next, role_of(configured.chip(), wire)),
        Driver::By(switch) => PointSlot::Shared(switch_slot(configured, slots, switch)),
        Driver::Several(_, _) => PointSlot::Shared(0),
    }
}

/// What gives a point of the chip its level, where `slots` has the slots of the points that it reads, and `next` is the next slot.
pub(crate) fn point_slot(
    configured: &ConfiguredChip<'_>,
    slots: &[u32],
    next: u32,
    point: Point,
) -> PointSlot
    requires { HasWire configured.now.parts point }
    ensures { result ≡ point_slot configured.now.parts (bits_of configured.now.configuration)
        configured.now.configuration.extras configured.now.bonded slots.now next point }
{
    match point {
        Point::Wire(wire) => wire_slot(configured, slots, next, wire),
        Point::Carry { tile, cell } => {
            if has_carry(configured.chip(), configured.bits(), tile, cell) {
                PointSlot::Own(Feed::Made(carry_gate(configured, slots, tile, cell, next)))
            } else {
                PointSlot::Shared(0)
            }
        }
    }
}

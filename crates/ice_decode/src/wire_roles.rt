//! What a wire is, by its names.
ghost use Rattle.std.specs.Prelude.{◌≡◌, ◌<◌};
ghost use Rattle.ice_decode.specs.Drivers.{number_at, global_role, output_role, or_global, logic_role, io_role, role_in, role_of, ram_wire_role, ram_role};

use crate::Role;
use ice_base::{TileAt, WireNo};
use ice_chip::{
    Chip, Pad, TileKind, cell_pin, has_ram_wire, in_out_enable_name, is_clock_enable,
    is_global_name, is_read_out, ram_number,
};
use ice_chip_rams::pin_at;

// The number that the digit at a place of a name has; 0 behind its end.
fn number_at(name: &[u8], place: usize) -> u8
    ensures { result ≡ number_at name.now place }
{
    match name.get(place) {
        Some(byte) => byte.saturating_sub(b'0'),
        None => 0,
    }
}

// The role of a name in every kind of tile.
fn global_role(name: &[u8]) -> Option<Role>
    ensures { result ≡ global_role name.now }
{
    if is_global_name(name) {
        return Some(Role::Global(number_at(name, 10)));
    }
    None
}

// The role of an output of a cell, by the pin behind the stroke of its name.
fn output_role(tile: TileAt, cell: u8, pin: &[u8]) -> Option<Role>
    ensures { result ≡ output_role tile cell pin.now }
{
    if pin == b"out".as_slice() {
        return Some(Role::Output { tile, cell });
    }
    if pin == b"lout".as_slice() {
        return Some(Role::LookUp { tile, cell });
    }
    if pin == b"cout".as_slice() {
        return Some(Role::CarryOut { tile, cell });
    }
    None
}

// The role, or else that of a global's name.
fn or_global(role: Option<Role>, name: &[u8]) -> Option<Role>
    ensures { result ≡ or_global role name.now }
{
    match role {
        Some(role) => Some(role),
        None => global_role(name),
    }
}

// The role of a name in a logic tile.
fn logic_role(tile: TileAt, name: &[u8]) -> Option<Role>
    ensures { result ≡ logic_role tile name.now }
{
    if name == b"carry_in_mux".as_slice() {
        return Some(Role::CarryIn(tile));
    }
    if name == b"lutff_global/cen".as_slice() {
        return Some(Role::ClockEnable);
    }
    or_global(output_role(tile, number_at(name, 6), cell_pin(name)), name)
}

// The role of a name in an IO tile.
fn io_role(tile: TileAt, name: &[u8]) -> Option<Role>
    ensures { result ≡ io_role tile name.now }
{
    if name == b"io_0/D_IN_0".as_slice() {
        return Some(Role::PadInput(Pad { tile, pio: 0 }));
    }
    if name == b"io_1/D_IN_0".as_slice() {
        return Some(Role::PadInput(Pad { tile, pio: 1 }));
    }
    if name == in_out_enable_name().as_slice() {
        return Some(Role::ClockEnable);
    }
    global_role(name)
}

// The role of the wire of this number of a block RAM in one of its two tiles.
fn ram_wire_role(tile: TileAt, kind: TileKind, wire: u8) -> Option<Role>
    requires { wire < 76 }
    ensures { result ≡ ram_wire_role tile kind wire }
{
    if has_ram_wire(kind, wire) && is_read_out(wire) {
        return Some(Role::RamOutput(pin_at(tile, wire)));
    }
    if has_ram_wire(kind, wire) && is_clock_enable(wire) {
        return Some(Role::ClockEnable);
    }
    None
}

// The role of a name in a tile of a block RAM.
fn ram_role(tile: TileAt, kind: TileKind, name: &[u8]) -> Option<Role>
    ensures { result ≡ ram_role tile kind name.now }
{
    match ram_number(name) {
        None => global_role(name),
        Some(wire) => match ram_wire_role(tile, kind, wire) {
            Some(role) => Some(role),
            None => global_role(name),
        },
    }
}

// The role of a name in a tile of a kind.
fn role_in(tile: TileAt, kind: Option<TileKind>, name: &[u8]) -> Option<Role>
    ensures { result ≡ role_in tile kind name.now }
{
    match kind {
        None => None,
        Some(TileKind::Io) => io_role(tile, name),
        Some(TileKind::Logic) => logic_role(tile, name),
        Some(TileKind::RamBottom) => ram_role(tile, TileKind::RamBottom, name),
        Some(TileKind::RamTop) => ram_role(tile, TileKind::RamTop, name),
    }
}

/// What a wire of the chip is, by the first of its names that says so. It takes no memory.
pub fn role_of(chip: &Chip, wire: WireNo) -> Role
    requires { wire.0 < chip.now.wires }
    ensures { result ≡ role_of chip.now wire.0 }
{
    for placed in chip.names(wire) {
        if let Some(role) = role_in(
            placed.tile,
            chip.kind_at(placed.tile),
            placed.name.as_bytes(),
        ) {
            return role;
        }
    }
    Role::Plain
}

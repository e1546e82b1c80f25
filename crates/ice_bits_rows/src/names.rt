//! Names of wires that routes may not leave or enter.
ghost use Rattle.std.specs.Prelude.{◌≡◌, ◌<◌, ◌||◌, bytes_eq, codes};
ghost use Rattle.ice_chip.specs.Lookups.{kind_at};
ghost use Rattle.ice_bits_rows.specs.WireNames.{is_input_in, is_output_in, is_strange_in, is_closed_in, has_strange_name, has_closed_name, has_input_name, has_output_name, may_leave, may_enter};

use ice_base::{TileAt, WireNo};
use ice_chip::{
    Chip, TileKind, cell_pin, is_input_name, is_memory_name, is_output_name, tile_wire,
};

// Whether this is `lout`. A match is less work than a comparison, since nearly all names are others.
fn is_look_up(pin: &[u8]) -> bool
    ensures { result ≡ bytes_eq pin.now (codes "lout") }
{
    match pin {
        [b'l', b'o', b'u', b't'] => true,
        _ => false,
    }
}

// Whether this is an input name of a tile of the kind.
fn is_input_in(kind: Option<TileKind>, name: &[u8]) -> bool
    ensures { result ≡ is_input_in kind name.now }
{
    match kind {
        None => false,
        Some(kind) => is_input_name(kind, name),
    }
}

// Whether this is an output name of a tile of the kind.
fn is_output_in(kind: Option<TileKind>, name: &[u8]) -> bool
    ensures { result ≡ is_output_in kind name.now }
{
    match kind {
        None => false,
        Some(kind) => is_output_name(kind, name),
    }
}

// Whether this is an input or an output name of a tile of the kind.
fn is_pin_in(kind: Option<TileKind>, name: &[u8]) -> bool
    ensures { result ≡ (is_input_in kind name.now || is_output_in kind name.now) }
{
    is_input_in(kind, name) || is_output_in(kind, name)
}

// Whether this is a name of a memory that is no pin of a block RAM in the tile at the place. The tile is looked up for names of
// memories alone.
fn is_strange_at(chip: &Chip, tile: TileAt, name: &[u8]) -> bool
    ensures { result ≡ is_strange_in (kind_at chip.now tile) name.now }
{
    is_memory_name(name) && !is_pin_in(chip.kind_at(tile), name)
}

// Whether this is the name, in the tile at the place, of a wire that no route uses.
fn is_closed_at(chip: &Chip, tile: TileAt, name: &[u8]) -> bool
    ensures { result ≡ is_closed_in (kind_at chip.now tile) name.now }
{
    is_strange_at(chip, tile, name) || is_look_up(cell_pin(name))
}

/// Whether the wire has a name of a memory that is no pin of a block RAM.
pub fn has_strange_name(chip: &Chip, wire: WireNo) -> bool
    requires { wire.0 < chip.now.wires }
    ensures { result ≡ has_strange_name chip.now wire.0 }
{
    for placed in chip.names(wire) {
        if is_strange_at(chip, placed.tile, placed.name.as_bytes()) {
            return true;
        }
    }
    false
}

/// Whether the wire has a name that closes it to routes.
pub fn has_closed_name(chip: &Chip, wire: WireNo) -> bool
    requires { wire.0 < chip.now.wires }
    ensures { result ≡ has_closed_name chip.now wire.0 }
{
    for placed in chip.names(wire) {
        if is_closed_at(chip, placed.tile, placed.name.as_bytes()) {
            return true;
        }
    }
    false
}

// Whether this is an input name of the tile at a place, and whether an output name. Most names are those of no pin.
fn pin_there(chip: &Chip, tile: TileAt, name: &[u8]) -> (bool, bool)
    ensures input { result.0 ≡ is_input_in (kind_at chip.now tile) name.now }
    ensures output { result.1 ≡ is_output_in (kind_at chip.now tile) name.now }
{
    match tile_wire(name) {
        None => (false, false),
        Some(_) => {
            let kind = chip.kind_at(tile);
            (is_input_in(kind, name), is_output_in(kind, name))
        }
    }
}

// Whether one of the two is true.
fn is_one(noted: bool, now: bool) -> bool
    ensures { result ≡ (noted || now) }
{
    noted || now
}

/// Whether the wire has an input name, and whether an output name.
pub fn has_pin_names(chip: &Chip, wire: WireNo) -> (bool, bool)
    requires { wire.0 < chip.now.wires }
    ensures input { result.0 ≡ has_input_name chip.now wire.0 }
    ensures output { result.1 ≡ has_output_name chip.now wire.0 }
{
    let mut input = false;
    let mut output = false;
    for placed in chip.names(wire) {
        let pin = pin_there(chip, placed.tile, placed.name.as_bytes());
        input = is_one(input, pin.0);
        output = is_one(output, pin.1);
    }
    (input, output)
}

// Whether the wire has an input name.
fn has_input_name(chip: &Chip, wire: WireNo) -> bool
    requires { wire.0 < chip.now.wires }
    ensures { result ≡ has_input_name chip.now wire.0 }
{
    has_pin_names(chip, wire).0
}

// Whether the wire has an output name.
fn has_output_name(chip: &Chip, wire: WireNo) -> bool
    requires { wire.0 < chip.now.wires }
    ensures { result ≡ has_output_name chip.now wire.0 }
{
    has_pin_names(chip, wire).1
}

/// Whether a route may leave the wire, by its names.
pub fn may_leave(chip: &Chip, wire: WireNo) -> bool
    requires { wire.0 < chip.now.wires }
    ensures { result ≡ may_leave chip.now wire.0 }
{
    !has_input_name(chip, wire) && !has_closed_name(chip, wire)
}

/// Whether a route may enter the wire, by its names.
pub fn may_enter(chip: &Chip, wire: WireNo) -> bool
    requires { wire.0 < chip.now.wires }
    ensures { result ≡ may_enter chip.now wire.0 }
{
    !has_output_name(chip, wire) && !has_closed_name(chip, wire)
}

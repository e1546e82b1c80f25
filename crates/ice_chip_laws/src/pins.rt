//! Pins of wires.
ghost use Rattle.std.specs.Prelude.{◌≡◌, ◌<◌, option_map};
ghost use Rattle.ice_chip_laws.specs.Pins.{is_pin_in, is_pin_name, pin_of, IsOnePin};

use crate::chip_is_lawful;
use ice_base::WireNo;
use ice_chip::{Chip, PlacedName, TileKind, is_input_name, is_output_name};

// Whether this is an input or output name of a tile of the kind.
fn is_pin_in(kind: Option<TileKind>, name: &[u8]) -> bool
    ensures { result ≡ is_pin_in kind name.now }
{
    match kind {
        None => false,
        Some(kind) => is_input_name(kind, name) || is_output_name(kind, name),
    }
}

/// Whether the name is that of a pin: an input or output name of the tile at its place.
pub fn is_pin_name(chip: &Chip, name: &PlacedName) -> bool
    ensures { result ≡ is_pin_name chip.now name.now }
{
    is_pin_in(chip.kind_at(name.tile), name.name.as_bytes())
}

// The first name of the wire that is a pin's.
fn first_pin(chip: &Chip, wire: WireNo) -> Option<&PlacedName>
    requires { wire.0 < chip.now.wires }
    ensures { option_map (λ n. n.now) result ≡ pin_of chip.now wire.0 }
{
    for name in chip.names(wire) {
        if is_pin_name(chip, name) {
            return Some(name);
        }
    }
    None
}

/// The pin that a wire leads to, or None exactly where it leads to none. All pin names of the wire are of this one pin:
/// there is no other, but those of a global, which has a name in many tiles. It takes no memory.
pub fn pin_of(chip: &Chip, wire: WireNo) -> Option<&PlacedName>
    requires { wire.0 < chip.now.wires }
    ensures first { option_map (λ n. n.now) result ≡ pin_of chip.now wire.0 }
    ensures one { IsOnePin chip.now wire.0 (option_map (λ n. n.now) result) }
{
    chip_is_lawful(chip);
    first_pin(chip, wire)
}

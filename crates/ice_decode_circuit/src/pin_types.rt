//! Which inputs and registers of pads are in use, and pads of a wrong type.
ghost use Rattle.std.specs.Prelude.{◌≡◌};
ghost use Rattle.ice_bits.specs.Configuration.{bits_of};
ghost use Rattle.ice_decode.specs.Drivers.{switches_on};
ghost use Rattle.ice_decode.specs.Tables.{AreSources};
ghost use Rattle.std.specs.List.{list_any};
ghost use Rattle.ice_decode.specs.Pads.{pads_in};
ghost use Rattle.ice_decode.specs.Faults.{is_output_part, is_input_type, is_input_read, uses_register, has_wrong_type};
ghost use Rattle.ice_decode.specs.FirstFaults.{wrong_pad};
ghost use Rattle.ice_decode_circuit.specs.PadTiles.{is_read_in, wrong_in};

use ice_base::{TileAt, WireNo};
use ice_bits::Bits;
use ice_chip::{Chip, Pad, TileKind, pad_input_name};
use ice_decode::{has_input_register, has_output_register, pin_type};

// Whether an output part is off, driving what a register keeps, driving, or driving where enabled.
fn is_output_part(part: u8) -> bool
    ensures { result ≡ is_output_part part }
{
    part == 0b0000 || part == 0b0101 || part == 0b0110 || part == 0b1010
}

// Whether an input of this type may be read.
fn is_input_type(value: u8) -> bool
    ensures { result ≡ is_input_type value }
{
    value % 4 == 0b01 || value == 0b000000
}

// Whether a row that is on reads a wire, by the table of those that are read.
fn is_read(sources: &[bool], wire: Option<WireNo>) -> bool
    ensures { result ≡ is_read_in sources.now wire }
{
    match wire {
        None => false,
        Some(wire) => sources.get(wire.0 as usize).copied().unwrap_or(false),
    }
}

// Whether the input of a pad is read.
fn is_input_read(chip: &Chip, bits: &Bits, sources: &[bool], pad: Pad) -> bool
    requires { AreSources (switches_on (bits_of bits.now) chip.now.groups) sources.now }
    ensures { result ≡ is_input_read chip.now (bits_of bits.now) pad }
{
    let _bits = bits;
    is_read(sources, chip.wire_named(pad.tile, &pad_input_name(pad.pio)))
}

// Whether a register of a pad is in use.
fn uses_register(chip: &Chip, bits: &Bits, sources: &[bool], pad: Pad) -> bool
    requires { AreSources (switches_on (bits_of bits.now) chip.now.groups) sources.now }
    ensures { result ≡ uses_register chip.now (bits_of bits.now) pad }
{
    has_output_register(chip, bits, pad)
        || has_input_register(chip, bits, pad) && is_input_read(chip, bits, sources, pad)
}

/// Whether a register of one of the two pads of a tile is in use. The table has whether a row that is on reads each wire. It takes no
/// memory.
pub(crate) fn uses_registers(chip: &Chip, bits: &Bits, sources: &[bool], tile: TileAt) -> bool
    requires { AreSources (switches_on (bits_of bits.now) chip.now.groups) sources.now }
    ensures { result ≡ list_any (uses_register chip.now (bits_of bits.now)) (pads_in tile) }
{
    uses_register(chip, bits, sources, Pad { tile, pio: 0 })
        || uses_register(chip, bits, sources, Pad { tile, pio: 1 })
}

// Whether a pad has a wrong type.
fn has_wrong_type(chip: &Chip, bits: &Bits, sources: &[bool], pad: Pad) -> bool
    requires { AreSources (switches_on (bits_of bits.now) chip.now.groups) sources.now }
    ensures { result ≡ has_wrong_type chip.now (bits_of bits.now) pad }
{
    let value = pin_type(chip, bits, pad);
    !is_output_part(value / 4) || is_input_read(chip, bits, sources, pad) && !is_input_type(value)
}

// The first of the two pads of an IO tile that has a wrong type.
fn wrong_in(chip: &Chip, bits: &Bits, sources: &[bool], tile: TileAt) -> Option<Pad>
    requires { AreSources (switches_on (bits_of bits.now) chip.now.groups) sources.now }
    ensures { result ≡ wrong_in chip.now (bits_of bits.now) tile }
{
    let first = Pad { tile, pio: 0 };
    if has_wrong_type(chip, bits, sources, first) {
        return Some(first);
    }
    let second = Pad { tile, pio: 1 };
    if has_wrong_type(chip, bits, sources, second) {
        return Some(second);
    }
    None
}

/// The first pad of a wrong type, in the order of the tiles. The table has whether a row that is on reads each wire. It takes no memory.
pub(crate) fn wrong_pad(chip: &Chip, bits: &Bits, sources: &[bool]) -> Option<Pad>
    requires { AreSources (switches_on (bits_of bits.now) chip.now.groups) sources.now }
    ensures { result ≡ wrong_pad chip.now (bits_of bits.now) }
{
    for tile in chip.tiles() {
        if let TileKind::Io = tile.kind {
            let found = wrong_in(chip, bits, sources, tile.at);
            if found.is_some() {
                return found;
            }
        }
    }
    None
}

//! The wires that pads give their levels to, those that drive pads, and which pads have them. None of these calls takes memory.
ghost use Rattle.std.specs.Prelude.{◌≡◌, ◌-◌, option_map};
ghost use Rattle.ice_chip.specs.Lookups.{wire_named};
ghost use Rattle.ice_chip.specs.RamNames.{ram_name};
ghost use Rattle.ice_chip_sockets.specs.Sockets.{given_name, driven_name, is_io_at, has_io_wire, has_ram_wire_in, has_ram_pin, gives, is_driven};

use ice_base::{TileAt, WireNo};
use ice_chip::{
    Chip, Pad, RAM_WIRES, TileKind, has_ram_wire, is_read_out, pad_input_name, pad_output_name,
    ram_name,
};
use ice_chip_rams::PINS;

// The name of the wire of this number of a block RAM; no byte where it has no such wire.
fn name_of_ram_wire(wire: u8) -> &'static [u8]
    ensures { result.now ≡ ram_name wire }
{
    if wire < RAM_WIRES {
        ram_name(wire)
    } else {
        &[]
    }
}

// The wire of this number of the block RAM of a tile.
fn ram_wire(chip: &Chip, tile: TileAt, wire: u8) -> Option<WireNo>
    ensures { option_map (λ wire. wire.0) result ≡ wire_named chip.now tile (ram_name wire) }
{
    chip.wire_named(tile, name_of_ram_wire(wire))
}

/// The wire that a pad gives its level to: the input of pad 0 or 1 of an IO tile, and for a pad of a greater number what a block RAM
/// reads out. None exactly where the tile has no wire of that name.
pub fn given_wire(chip: &Chip, pad: Pad) -> Option<WireNo>
    ensures { option_map (λ wire. wire.0) result
        ≡ wire_named chip.now pad.tile (given_name pad.pio) }
{
    if pad.pio < 2 {
        chip.wire_named(pad.tile, &pad_input_name(pad.pio))
    } else {
        ram_wire(chip, pad.tile, pad.pio - 2)
    }
}

/// The wire that drives a pad: the output of pad 0 or 1 of an IO tile, and for a pad of a greater number an input of a block RAM. None
/// exactly where the tile has no wire of that name.
pub fn driven_wire(chip: &Chip, pad: Pad) -> Option<WireNo>
    ensures { option_map (λ wire. wire.0) result
        ≡ wire_named chip.now pad.tile (driven_name pad.pio) }
{
    if pad.pio < 2 {
        chip.wire_named(pad.tile, &pad_output_name(pad.pio))
    } else {
        ram_wire(chip, pad.tile, pad.pio - 2)
    }
}

// Whether this is the kind of an IO tile.
fn is_io_at(kind: Option<TileKind>) -> bool
    ensures { result ≡ is_io_at kind }
{
    matches!(kind, Some(TileKind::Io))
}

/// Whether an IO tile has a wire of the name.
pub fn has_io_wire(chip: &Chip, tile: TileAt, name: &[u8]) -> bool
    ensures { result ≡ has_io_wire chip.now tile name.now }
{
    is_io_at(chip.kind_at(tile)) && chip.wire_named(tile, name).is_some()
}

// Whether a wire of this number of a block RAM stands in a tile of the kind.
fn has_ram_wire_in(kind: Option<TileKind>, wire: u8) -> bool
    ensures { result ≡ has_ram_wire_in wire kind }
{
    match kind {
        None => false,
        Some(kind) => has_ram_wire(kind, wire),
    }
}

// Whether a tile of a block RAM has the wire of this number.
fn has_ram_pin(chip: &Chip, tile: TileAt, wire: u8) -> bool
    ensures { result ≡ has_ram_pin chip.now tile wire }
{
    has_ram_wire_in(chip.kind_at(tile), wire) && ram_wire(chip, tile, wire).is_some()
}

/// Whether the pad can give its level: an IO tile has its input, or it is a pin that a block RAM reads out.
pub fn gives(chip: &Chip, pad: Pad) -> bool
    ensures { result ≡ gives chip.now pad }
{
    if pad.pio < 2 {
        has_io_wire(chip, pad.tile, &pad_input_name(pad.pio))
    } else {
        is_read_out(pad.pio - 2) && has_ram_pin(chip, pad.tile, pad.pio - 2)
    }
}

/// Whether the pad can be driven: an IO tile has its output, or it is a pin that a block RAM reads.
pub fn is_driven(chip: &Chip, pad: Pad) -> bool
    ensures { result ≡ is_driven chip.now pad }
{
    if pad.pio < 2 {
        has_io_wire(chip, pad.tile, &pad_output_name(pad.pio))
    } else {
        !is_read_out(pad.pio - 2) && pad.pio - 2 < PINS && has_ram_pin(chip, pad.tile, pad.pio - 2)
    }
}

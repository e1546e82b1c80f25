//! Names of wires that lead into the cells, pads or block RAM of a tile, or out of them.
ghost use Rattle.std.specs.Prelude.{◌≡◌};
ghost use Rattle.ice_chip.specs.Names.{is_global_name, cell_pin};
ghost use Rattle.ice_chip.specs.PinNames.{is_input_of, is_output_of, is_input_name, is_output_name, is_memory_name};
ghost use Rattle.ice_chip.specs.RamNames.{has_ram_wire};

use crate::TileKind;
use ice_chip_names::{TileWire, is_lower, is_read_out, number_behind, tile_wire};

/// Whether this is the name of a global, `glb_netwk_0` to `glb_netwk_7`.
pub fn is_global_name(name: &[u8]) -> bool
    ensures { result ≡ is_global_name name.now }
{
    number_behind(8, b"glb_netwk_", name).is_some()
}

/// The pin that `lutff_I/PIN` names, where I is from 0 to 7; no byte for every other name.
pub fn cell_pin(name: &[u8]) -> &[u8]
    ensures { result.now ≡ cell_pin name.now }
{
    match name {
        [
            b'l',
            b'u',
            b't',
            b'f',
            b'f',
            b'_',
            b'0'..=b'7',
            b'/',
            pin @ ..,
        ] => pin,
        _ => &[],
    }
}

/// Whether a wire of this number of a block RAM stands in such a tile, of which there are a lower and an upper one.
pub fn has_ram_wire(kind: TileKind, wire: u8) -> bool
    ensures { result ≡ has_ram_wire kind wire }
{
    match kind {
        TileKind::Io => false,
        TileKind::Logic => false,
        TileKind::RamBottom => is_lower(wire),
        TileKind::RamTop => !is_lower(wire),
    }
}

// Whether the cells, pads or block RAM of such a tile read the wire.
fn is_input_of(kind: TileKind, wire: TileWire) -> bool
    ensures { result ≡ is_input_of kind wire }
{
    match (kind, wire) {
        (TileKind::Io, TileWire::PadOutput(_)) => true,
        (TileKind::Io, TileWire::OutputEnable(_)) => true,
        (TileKind::Io, TileWire::Fabout) => true,
        (TileKind::Io, TileWire::InputClock) => true,
        (TileKind::Io, TileWire::OutputClock) => true,
        (TileKind::Io, TileWire::InOutEnable) => true,
        (TileKind::Logic, TileWire::CellInput(_, _)) => true,
        (TileKind::Logic, TileWire::Clock) => true,
        (TileKind::Logic, TileWire::ClockEnable) => true,
        (TileKind::Logic, TileWire::SetReset) => true,
        (TileKind::Logic, TileWire::FirstCarry) => true,
        (TileKind::RamBottom, TileWire::Ram(n)) => is_lower(n) && !is_read_out(n),
        (TileKind::RamTop, TileWire::Ram(n)) => !is_lower(n) && !is_read_out(n),
        _ => false,
    }
}

// Whether the cells, pads or block RAM of such a tile, or a global, drive the wire.
fn is_output_of(kind: TileKind, wire: TileWire) -> bool
    ensures { result ≡ is_output_of kind wire }
{
    match (kind, wire) {
        (_, TileWire::Global(_)) => true,
        (TileKind::Io, TileWire::PadInput(_)) => true,
        (TileKind::Logic, TileWire::CellOutput(_)) => true,
        (TileKind::Logic, TileWire::CarryOut(_)) => true,
        (TileKind::Logic, TileWire::LookUp(_)) => true,
        (TileKind::RamBottom, TileWire::Ram(n)) => is_lower(n) && is_read_out(n),
        (TileKind::RamTop, TileWire::Ram(n)) => !is_lower(n) && is_read_out(n),
        _ => false,
    }
}

/// Whether the cells, pads or block RAM of such a tile read the wire of this name.
pub fn is_input_name(kind: TileKind, name: &[u8]) -> bool
    ensures { result ≡ is_input_name kind name.now }
{
    match tile_wire(name) {
        Some(wire) => is_input_of(kind, wire),
        None => false,
    }
}

/// Whether the cells, pads or block RAM of such a tile, or a global, drive the wire of this name.
pub fn is_output_name(kind: TileKind, name: &[u8]) -> bool
    ensures { result ≡ is_output_name kind name.now }
{
    match tile_wire(name) {
        Some(wire) => is_output_of(kind, wire),
        None => false,
    }
}

/// Whether this is the name of a memory's wire, which no route uses.
pub fn is_memory_name(name: &[u8]) -> bool
    ensures { result ≡ is_memory_name name.now }
{
    name.starts_with(b"ram/".as_slice())
}

//! Column buffers: which globals reach the rows of a tile.
ghost use Rattle.std.specs.Prelude.{◌≡◌, ◌<◌};
ghost use Rattle.ice_chip.specs.Lookups.{names_of, colbuf_of};
ghost use Rattle.ice_bits.specs.Configuration.{bits_of};
ghost use Rattle.ice_chip.specs.WireNames.{global_name};
ghost use Rattle.ice_decode.specs.GlobalNames.{is_named, global_named};
ghost use Rattle.ice_decode.specs.Meaning.{global_at, lets_through, passes};

use crate::Switch;
use crate::settings::setting;
use ice_base::{TileAt, WireNo};
use ice_bits::Bits;
use ice_chip::{Chip, column_buffer_function, global_name};
use ice_chip_laws::chip_is_lawful;

// Whether a wire has a name in a tile.
fn is_named(chip: &Chip, tile: TileAt, name: &[u8], wire: WireNo) -> bool
    ensures { result ≡ is_named chip.now tile name.now wire.0 }
{
    match chip.wire_named(tile, name) {
        None => false,
        Some(named) => named.0 == wire.0,
    }
}

// Whether a wire has the name of a global in a tile.
fn has_global(chip: &Chip, tile: TileAt, wire: WireNo, global: u8) -> bool
    ensures { result ≡ is_named chip.now tile (global_name global) wire.0 }
{
    is_named(chip, tile, &global_name(global), wire)
}

// The first of the eight globals whose name a wire has in a tile.
#[tactic(auto, using(crate::proofs::FirstOf::first_here, crate::proofs::FirstOf::first_next, crate::proofs::FirstOf::first_none))]
fn global_named(chip: &Chip, tile: TileAt, wire: WireNo) -> Option<u8>
    ensures { result ≡ global_named chip.now tile wire.0 }
{
    for global in 0..8u8 {
        if has_global(chip, tile, wire, global) {
            return Some(global);
        }
    }
    None
}

/// The number of the global, from 0 to 7, whose name a wire has in a tile. Of a wire that is a global's all pin names are of this
/// global, so that eight look-ups find it, however many names the wire has. It takes no memory.
pub fn global_at(chip: &Chip, tile: TileAt, wire: WireNo) -> Option<u8>
    ensures { result ≡ global_at tile (names_of chip.now wire.0) }
{
    chip_is_lawful(chip);
    global_named(chip, tile, wire)
}

// Whether the column buffer of a global lets it through to a tile.
fn lets_through(chip: &Chip, bits: &Bits, tile: TileAt, global: u8) -> bool
    ensures { result ≡ lets_through chip.now (bits_of bits.now) (colbuf_of chip.now tile) global }
{
    match chip.colbuf_of(tile) {
        None => true,
        Some(buffer) => setting(chip, bits, buffer, &column_buffer_function(global), 0),
    }
}

/// Whether a row that is on gives the level of its source, and not 0: its source is no global in the row's tile, or one whose column
/// buffer there is on. The source is a wire of the chip. It takes no memory.
pub fn passes(chip: &Chip, bits: &Bits, switch: &Switch) -> bool
    requires { switch.now.source.0 < chip.now.wires }
    ensures { result ≡ passes chip.now (bits_of bits.now) switch.now }
{
    match global_at(chip, switch.tile, switch.source) {
        None => true,
        Some(global) => lets_through(chip, bits, switch.tile, global),
    }
}

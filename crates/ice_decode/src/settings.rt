//! What the tiles of a chip are set to by its bits.
ghost use Rattle.std.specs.Prelude.{◌≡◌};
ghost use Rattle.ice_bits.specs.Configuration.{bits_of};
ghost use Rattle.ice_bits.specs.Settings.{set_at};
ghost use Rattle.ice_decode.specs.Cells.{cell_bit, has_carry, has_flop, reset_by};

use ice_base::TileAt;
use ice_bits::Bits;
use ice_chip::{Chip, cell_function};
use ice_net::Reset;

/// The bit of this number of a function in a tile; 0 where no tile stands there, or its kind lacks the function or the bit. It takes
/// no memory.
pub fn setting(chip: &Chip, bits: &Bits, tile: TileAt, function: &[u8], number: usize) -> bool
    ensures { result ≡ set_at chip.now (bits_of bits.now) tile function.now number }
{
    let Some(kind) = chip.kind_at(tile) else {
        return false;
    };
    let Some(function) = chip.function(kind, function) else {
        return false;
    };
    match function.bits.get(number) {
        Some(bit) => bits.get(tile, *bit),
        None => false,
    }
}

/// The bit of this number of a cell of a tile.
pub fn cell_bit(chip: &Chip, bits: &Bits, tile: TileAt, cell: u8, number: usize) -> bool
    ensures { result ≡ cell_bit chip.now (bits_of bits.now) tile cell number }
{
    setting(chip, bits, tile, &cell_function(cell), number)
}

/// Whether the carry of a cell is enabled.
pub fn has_carry(chip: &Chip, bits: &Bits, tile: TileAt, cell: u8) -> bool
    ensures { result ≡ has_carry chip.now (bits_of bits.now) tile cell }
{
    cell_bit(chip, bits, tile, cell, 8)
}

/// Whether the output of a cell is its flip-flop's.
pub fn has_flop(chip: &Chip, bits: &Bits, tile: TileAt, cell: u8) -> bool
    ensures { result ≡ has_flop chip.now (bits_of bits.now) tile cell }
{
    cell_bit(chip, bits, tile, cell, 9)
}

/// Which way a flip-flop is set or reset.
pub fn reset_by(set: bool, at_once: bool) -> Reset
    ensures { result ≡ reset_by set at_once }
{
    match (set, at_once) {
        (false, false) => Reset::SyncReset,
        (false, true) => Reset::AsyncReset,
        (true, false) => Reset::SyncSet,
        (true, true) => Reset::AsyncSet,
    }
}

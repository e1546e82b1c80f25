//! The bits of one row, and a bit of a function.
ghost use Rattle.std.specs.Prelude.{◌≡◌, true, length};
ghost use Rattle.ice_base.specs.declared.bit.BitAt.{BitAt};
ghost use Rattle.ice_base_values.specs.Order.{Has};
ghost use Rattle.ice_bits.specs.Grids.{IsOf, is_bit_of};
ghost use Rattle.ice_bits.specs.Settings.{function_bit};
ghost use Rattle.ice_chip_laws.specs.Bits.{function_place};
ghost use Rattle.ice_emit_rows_laws.specs.Settings.{sets_one};
ghost use Rattle.ice_emit_bits.specs.Adds.{Adds, one_bit, values_in, row_bits, setting_of};

use ice_base::{BitAt, RowNo, TileAt};
use ice_bits::{Bits, chip_has_its_bits};
use ice_chip::{Chip, TileKind};
use ice_chip_laws::chip_is_lawful;

// Sets a bit of a tile, where the value is 1.
#[tactic(auto, using(crate::proofs::Adding::one_added, crate::proofs::Adding::none_added))]
fn set_if(bits: &mut Bits, chip: &Chip, tile: TileAt, place: BitAt, value: bool)
    requires form { IsOf chip.now bits.old }
    requires place { is_bit_of chip.now tile place ≡ true }
    ensures { Adds chip.now bits.old bits.new (one_bit tile place value) }
{
    chip_has_its_bits();
    if value {
        bits.set(tile, place, true);
    }
}

// Sets those bits at these places of a tile that have the value 1.
#[tactic(auto, using(crate::proofs::Adding::all_left, crate::proofs::Adding::values_next, crate::proofs::Adding::values_done, crate::proofs::Adding::has_read))]
fn set_ones(bits: &mut Bits, chip: &Chip, tile: TileAt, places: &[BitAt], values: &[bool])
    requires form { IsOf chip.now bits.old }
    requires places { (place : BitAt) → Has places.now place
        → is_bit_of chip.now tile place ≡ true }
    requires paired { length values.now ≡ length places.now }
    ensures { Adds chip.now bits.old bits.new (values_in tile places.now values.now) }
{
    for k in 0..places.len() {
        set_if(bits, chip, tile, places[k], values[k]);
    }
}

/// Sets the bits that turn on a row of the chip, and no others; none, where no row has the number. It takes no memory.
pub fn turn_on(bits: &mut Bits, chip: &Chip, row: RowNo)
    requires form { IsOf chip.now bits.old }
    ensures { Adds chip.now bits.old bits.new (row_bits chip.now row.0) }
{
    if row.0 >= chip.rows() {
        return;
    }
    chip.is_chip();
    chip_is_lawful(chip);
    let (group, values) = chip.row(row);
    set_ones(bits, chip, group.tile, &group.bits, &values.values);
}

// The place of a bit of a function that tiles of a kind have.
fn bit_of(chip: &Chip, kind: TileKind, name: &[u8], number: usize) -> Option<BitAt>
    ensures { result ≡ function_place chip.now kind name.now number }
{
    chip.function(kind, name)?.bits.get(number).copied()
}

// Where a bit of a function stands in a tile.
fn place_of(chip: &Chip, tile: TileAt, name: &[u8], number: usize) -> Option<BitAt>
    ensures { result ≡ function_bit chip.now tile name.now number }
{
    bit_of(chip, chip.kind_at(tile)?, name, number)
}

/// Sets the bit numbered `number`, from 0, of a function in a tile; none, where no tile stands, its kind lacks the function, or the
/// function the bit. It takes no memory.
#[tactic(auto, using(crate::proofs::Placing::nowhere_added, crate::proofs::Placing::somewhere_added, crate::proofs::Placing::place_is_there))]
pub fn set_one(bits: &mut Bits, chip: &Chip, tile: TileAt, name: &[u8], number: usize)
    requires form { IsOf chip.now bits.old }
    ensures { Adds chip.now bits.old bits.new (λ t b.
        sets_one chip.now t b (setting_of tile name.now number)) }
{
    chip.is_chip();
    if let Some(place) = place_of(chip, tile, name, number) {
        set_if(bits, chip, tile, place, true);
    }
}

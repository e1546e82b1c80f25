//! Lists of rows and of bits of functions that are to be set.
ghost use Rattle.std.specs.Prelude.{map};
ghost use Rattle.ice_base.specs.declared.number.RowNo.{RowNo};
ghost use Rattle.ice_bits.specs.Grids.{IsOf};
ghost use Rattle.ice_emit_rows_laws.specs.Settings.{sets_one, function_bits};
ghost use Rattle.ice_emit_bits.specs.Adds.{Adds};
ghost use Rattle.ice_emit_bits.specs.Lists.{setting_view, all_rows};

use crate::ones::{set_one, turn_on};
use ice_base::{RowNo, TileAt};
use ice_bits::Bits;
use ice_chip::{
    Chip, TileFunction, carry_set_function, cell_function, column_buffer_function,
    falling_clock_function, input_enable_function, pin_type_function, power_up_function,
    pull_up_function, ram_mode_function,
};

/// A bit of a function that is to be set.
#[derive(Clone, Copy)]
pub struct Setting {
    /// The tile.
    pub tile: TileAt,
    /// The function.
    pub function: TileFunction,
    /// The number of the bit, from 0.
    pub number: u8,
}

// Sets the bit of a setting.
fn set(bits: &mut Bits, chip: &Chip, setting: &Setting)
    requires form { IsOf chip.now bits.old }
    ensures { Adds chip.now bits.old bits.new (λ t b.
        sets_one chip.now t b (setting_view setting.now)) }
{
    let tile = setting.tile;
    let number = usize::from(setting.number);
    match setting.function {
        TileFunction::Cell(cell) => set_one(bits, chip, tile, &cell_function(cell), number),
        TileFunction::FallingClock => set_one(bits, chip, tile, &falling_clock_function(), number),
        TileFunction::CarrySet => set_one(bits, chip, tile, &carry_set_function(), number),
        TileFunction::PinType(pio, place) => set_one(
            bits,
            chip,
            tile,
            &pin_type_function(pio, place),
            number,
        ),
        TileFunction::InputEnable(pio) => set_one(
            bits,
            chip,
            tile,
            &input_enable_function(pio),
            number,
        ),
        TileFunction::PullUp(pio) => set_one(bits, chip, tile, &pull_up_function(pio), number),
        TileFunction::ColumnBuffer(global) => set_one(
            bits,
            chip,
            tile,
            &column_buffer_function(global),
            number,
        ),
        TileFunction::PowerUp => set_one(bits, chip, tile, &power_up_function(), number),
        TileFunction::RamMode(place) => set_one(
            bits,
            chip,
            tile,
            &ram_mode_function(place),
            number,
        ),
    }
}

/// Sets the bits of functions that are listed, and no others. A bit that no tile has is passed over. It takes no memory.
#[tactic(auto, using(crate::proofs::Adding::all_left, crate::proofs::Listing::settings_next, crate::proofs::Listing::settings_done))]
pub fn set_all(bits: &mut Bits, chip: &Chip, settings: &[Setting])
    requires form { IsOf chip.now bits.old }
    ensures { Adds chip.now bits.old bits.new
        (function_bits chip.now (map setting_view settings.now)) }
{
    for setting in settings {
        set(bits, chip, setting);
    }
}

/// Sets the bits that turn on these rows of the chip, and no others. A number that no row has is passed over. It takes no memory.
#[tactic(auto, using(crate::proofs::Adding::all_left, crate::proofs::Listing::rows_next, crate::proofs::Listing::rows_done))]
pub fn turn_all_on(bits: &mut Bits, chip: &Chip, rows: &[RowNo])
    requires form { IsOf chip.now bits.old }
    ensures { Adds chip.now bits.old bits.new (all_rows chip.now rows.now) }
{
    for row in rows {
        turn_on(bits, chip, *row);
    }
}

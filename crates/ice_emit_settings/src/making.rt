//! Lists of settings.
ghost use Rattle.std.specs.Prelude.{◌≡◌, ◌<◌, ◌++◌, ◌∷◌, [], OnOk};
ghost use Rattle.ice_chip.specs.FunctionNames.{function_name};
ghost use Rattle.ice_net.specs.Meaning.{table_bit};
ghost use Rattle.ice_emit_defs.specs.Functions.{setting, setting_if};
ghost use Rattle.ice_emit_settings.specs.Views.{views};

use ice_base::{NoMemory, TileAt};
use ice_chip::TileFunction;
use ice_emit_bits::Setting;

/// A digit of a number, the lowest at place 0.
pub fn digit(number: u8, place: u8) -> bool
    requires { place < 8 }
    ensures { result ≡ table_bit number place }
{
    (number >> place) & 1 == 1
}

/// Adds a setting.
pub fn push(
    made: &mut Vec<Setting>,
    tile: TileAt,
    function: TileFunction,
    number: u8,
) -> Result<(), NoMemory>
    ensures { OnOk result (views made.new.items
        ≡ views made.old.items ++ setting tile (function_name function) number ∷ []) }
{
    made.push(Setting {
        tile,
        function,
        number,
    })?;
    Ok(())
}

/// Adds a setting, where it is wanted.
///
/// # Errors
/// Want of memory alone.
pub fn push_if(
    made: &mut Vec<Setting>,
    wanted: bool,
    tile: TileAt,
    function: TileFunction,
    number: u8,
) -> Result<(), NoMemory>
    ensures { OnOk result (views made.new.items
        ≡ views made.old.items ++ setting_if wanted tile (function_name function) number) }
{
    if wanted {
        push(made, tile, function, number)?;
    }
    Ok(())
}

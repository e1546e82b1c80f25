//! Whether a kind of tile has a function.
ghost use Rattle.std.specs.Prelude.{◌≡◌, map};
ghost use Rattle.ice_chip.specs.LacksFunction.{has_function, has_column_buffers};
ghost use Rattle.ice_chip.specs.Names.{column_buffer_function};
ghost use Rattle.ice_chip.specs.Views.{function_view};

use crate::{Function, TileKind, column_buffer_function, function_line};

/// Whether the kind has a function of the name.
pub fn has_function(kind: TileKind, name: &[u8], functions: &[Function]) -> bool
    ensures { result ≡ has_function kind name.now (map function_view functions.now) }
{
    function_line(kind, name, functions).is_some()
}

/// Whether the kind has the column buffers of all eight globals.
pub fn has_column_buffers(kind: TileKind, functions: &[Function]) -> bool
    ensures { result ≡ has_column_buffers kind (map function_view functions.now) }
{
    for n in 0..8u8 {
        if !has_function(kind, &column_buffer_function(n), functions) {
            return false;
        }
    }
    true
}

//! The chip database of Project IceStorm as data: tiles, functions, names of wires, groups of switches, packages,
//! and the rows of global buffers, input enables and column buffers.
#![tactic(auto)]

mod chip;
mod fault;
mod function_laws;
mod functions;
mod has_functions;
mod index;
mod indices;
mod lists;
mod name_lines;
mod name_places;
mod named_parts;
mod names;
mod parts;
mod pin_names;
mod placed;
mod places;
mod rows;
mod sections;
mod tile;
mod uses;
mod wire_text;

pub use chip::Chip;
pub use fault::ChipFault;
pub use function_laws::{lacks_function_is_first, shared_function_is_first};
pub use functions::{
    function_line, is_foreign, is_logic_cell, is_ram_function, is_read, same_kind,
};
pub use has_functions::{has_column_buffers, has_function};
pub use ice_chip_names::{
    RAM_WIRES, TileFunction, TileWire, carry_in_name, carry_out_name, carry_set_function,
    cell_function, clock_enable_name, clock_name, column_buffer_function, digit, fabout_name,
    falling_clock_function, first_carry_name, function_names_are_read, global_name,
    in_out_enable_name, input_clock_name, input_enable_function, input_name, is_clock_enable,
    is_lower, is_read_out, look_up_name, number_behind, number_within, output_clock_name,
    output_enable_name, output_name, pad_input_name, pad_output_name, pin_type_function,
    power_up_function, pull_up_function, ram_mode_function, ram_name, ram_number, set_reset_name,
    tile_function, tile_wire, wire_names_are_read,
};
pub use name_lines::{PinLine, WireLine};
pub use named_parts::NamedParts;
pub use parts::{ChipParts, Package};
pub use pin_names::{
    cell_pin, has_ram_wire, is_global_name, is_input_name, is_memory_name, is_output_name,
};
pub use placed::PlacedName;
pub use rows::{Pad, TileKind, TileLine};
pub use sections::{BitList, Function, Group, NameRow, Row, ValueList};
pub use tile::Tile;
pub use uses::{BitUse, KindBit};
pub use wire_text::WireText;

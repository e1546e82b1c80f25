//! The names of wires and of functions that are read, in a tile: a maker of each, and the readers of all.
#![tactic(auto)]

mod digits;
mod function_names;
mod ram_names;
mod wire_names;

pub use digits::{digit, number_behind, number_within};
pub use function_names::{
    TileFunction, carry_set_function, cell_function, column_buffer_function,
    falling_clock_function, function_names_are_read, input_enable_function, pin_type_function,
    power_up_function, pull_up_function, ram_mode_function, tile_function,
};
pub use ram_names::{RAM_WIRES, is_clock_enable, is_lower, is_read_out, ram_name, ram_number};
pub use wire_names::{
    TileWire, carry_in_name, carry_out_name, clock_enable_name, clock_name, fabout_name,
    first_carry_name, global_name, in_out_enable_name, input_clock_name, input_name, look_up_name,
    output_clock_name, output_enable_name, output_name, pad_input_name, pad_output_name,
    set_reset_name, tile_wire, wire_names_are_read,
};

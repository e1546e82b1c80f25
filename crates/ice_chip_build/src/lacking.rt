//! Functions that a kind of tile lacks, or has with another number of bits.
ghost use Rattle.std.specs.Prelude.{◌≡◌, map};
ghost use Rattle.ice_chip.specs.LacksFunction.{is_of_kind, has_kind, has_tile, is_buffer_source, has_each, has_logic, has_pin_types, has_pad_enables, has_needed, lacks_needed, bits_needed, has_wrong_bits, wrong_bits, lacks_function};
ghost use Rattle.ice_chip.specs.Names.{cell_function, pin_type_function, input_enable_function};
ghost use Rattle.ice_chip.specs.FunctionNames.{pull_up_function};
ghost use Rattle.ice_chip.specs.declared.rows.TileKind.TheVariants.{Io, Logic};
ghost use Rattle.ice_chip.specs.Views.{function_view, parts_view};

use crate::least::least_of;
use ice_chip::{
    ChipParts, Function, TileKind, TileLine, carry_set_function, cell_function,
    falling_clock_function, has_column_buffers, has_function, input_enable_function, is_logic_cell,
    is_read, pin_type_function, pull_up_function, same_kind,
};

// Whether there is a tile of the kind.
fn is_of_kind(kind: TileKind, tile: Option<TileLine>) -> bool
    ensures { result ≡ is_of_kind kind tile }
{
    match tile {
        None => false,
        Some(tile) => same_kind(tile.kind, kind),
    }
}

// Whether there are the functions of the eight logic cells.
fn has_cells(functions: &[Function]) -> bool
    ensures { result ≡ has_each Logic cell_function 8 (map function_view functions.now) }
{
    for cell in 0..8u8 {
        if !has_function(TileKind::Logic, &cell_function(cell), functions) {
            return false;
        }
    }
    true
}

// Whether there are the functions of logic cells, of their clock and of their first carry.
fn has_logic(functions: &[Function]) -> bool
    ensures { result ≡ has_logic (map function_view functions.now) }
{
    has_cells(functions)
        && has_function(TileKind::Logic, &falling_clock_function(), functions)
        && has_function(TileKind::Logic, &carry_set_function(), functions)
}

// Whether there are all digits of the pin type of a pad.
fn has_pin_type(pio: u8, functions: &[Function]) -> bool
    ensures { result ≡ has_each Io (pin_type_function pio) 6 (map function_view functions.now) }
{
    for place in 0..6u8 {
        if !has_function(TileKind::Io, &pin_type_function(pio, place), functions) {
            return false;
        }
    }
    true
}

// Whether there are the input enables of both pads.
fn has_input_enables(functions: &[Function]) -> bool
    ensures { result ≡ has_each Io input_enable_function 2 (map function_view functions.now) }
{
    has_function(TileKind::Io, &input_enable_function(0), functions)
        && has_function(TileKind::Io, &input_enable_function(1), functions)
}

// Whether there are the pull-ups of both pads.
fn has_pull_ups(functions: &[Function]) -> bool
    ensures { result ≡ has_each Io pull_up_function 2 (map function_view functions.now) }
{
    has_function(TileKind::Io, &pull_up_function(0), functions)
        && has_function(TileKind::Io, &pull_up_function(1), functions)
}

// Whether there are the input enables and pull-ups of both pads.
fn has_pad_enables(functions: &[Function]) -> bool
    ensures { result ≡ has_pad_enables (map function_view functions.now) }
{
    has_input_enables(functions) && has_pull_ups(functions)
}

// Whether there are all digits of the pin types of both pads.
fn has_pin_types(functions: &[Function]) -> bool
    ensures { result ≡ has_pin_types (map function_view functions.now) }
{
    has_pin_type(0, functions) && has_pin_type(1, functions)
}

// Whether the kind has all functions that it needs.
fn has_needed(is_source: bool, kind: TileKind, functions: &[Function]) -> bool
    ensures { result ≡ has_needed is_source kind (map function_view functions.now) }
{
    match kind {
        TileKind::Io => has_pin_types(functions) && has_pad_enables(functions),
        TileKind::Logic => {
            has_logic(functions) && (!is_source || has_column_buffers(TileKind::Logic, functions))
        }
        TileKind::RamBottom => !is_source || has_column_buffers(TileKind::RamBottom, functions),
        TileKind::RamTop => !is_source || has_column_buffers(TileKind::RamTop, functions),
    }
}

// The number of bits of a read function.
fn bits_needed(name: &[u8]) -> usize
    ensures { result ≡ bits_needed name.now }
{
    if is_logic_cell(name) { 20 } else { 1 }
}

// Whether a tile is of the kind.
fn has_tile(parts: &ChipParts, kind: TileKind) -> bool
    ensures { result ≡ has_tile kind (parts_view parts.now).tiles }
{
    for tile in parts.tiles.values() {
        if same_kind(tile.kind, kind) {
            return true;
        }
    }
    false
}

// Whether the source of a row of the column buffers is a tile of the kind.
fn is_buffer_source(parts: &ChipParts, kind: TileKind) -> bool
    ensures { result
        ≡ is_buffer_source kind (parts_view parts.now).tiles (parts_view parts.now).colbuf }
{
    for (source, _) in &parts.colbuf {
        if is_of_kind(kind, parts.tile_at(*source)) {
            return true;
        }
    }
    false
}

// Whether the kind has a tile and lacks a function that it needs.
fn lacks_needed(parts: &ChipParts, kind: TileKind) -> bool
    ensures { result ≡ lacks_needed (parts_view parts.now) kind }
{
    has_tile(parts, kind) && !has_needed(is_buffer_source(parts, kind), kind, &parts.functions)
}

// Whether a read function of a kind that has a tile has a wrong number of bits.
fn has_wrong_bits(parts: &ChipParts, function: &Function) -> bool
    ensures { result ≡ has_wrong_bits (parts_view parts.now).tiles (function_view function.now) }
{
    let name = function.name.as_bytes();
    is_read(function.kind, name)
        && function.bits.len() != bits_needed(name)
        && has_tile(parts, function.kind)
}

// The least line of a function with a wrong number of bits.
fn wrong_bits(parts: &ChipParts) -> Option<u32>
    ensures { result
        ≡ wrong_bits (parts_view parts.now).tiles None (parts_view parts.now).functions }
{
    let mut known = None;
    for function in &parts.functions {
        if has_wrong_bits(parts, function) {
            known = Some(least_of(known, function.line));
        }
    }
    known
}

/// The line 0, where a kind that has a tile lacks a function that it needs; or else the least line of a read function
/// of such a kind with a wrong number of bits, which is right where it is 20 for the logic cells and 1 for all
/// others. Logic and memory need column buffers where the source of a row of these is a tile of the kind. It takes
/// no memory.
pub fn lacks_function(parts: &ChipParts) -> Option<u32>
    ensures { result ≡ lacks_function (parts_view parts.now) }
{
    if lacks_needed(parts, TileKind::Io)
        || lacks_needed(parts, TileKind::Logic)
        || lacks_needed(parts, TileKind::RamBottom)
        || lacks_needed(parts, TileKind::RamTop)
    {
        return Some(0);
    }
    wrong_bits(parts)
}

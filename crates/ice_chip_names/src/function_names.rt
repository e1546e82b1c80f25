//! The names of the functions that are read. Numbers in them are one digit long: a maker takes the last digit of its number,
//! and the reader takes no name whose number a tile doesn't have.
ghost use Rattle.std.specs.Prelude.{◌≡◌};
ghost use Rattle.ice_chip_names.specs.FunctionNames.{pad_function, lone_function, tile_function, FunctionNamesAreRead, carry_set_function, pull_up_function, power_up_function, ram_mode_function};
ghost use Rattle.ice_chip_names.specs.Names.{cell_function, falling_clock_function, pin_type_function, input_enable_function, column_buffer_function};

use crate::digits::{digit, number_behind, number_within};

/// A function that is read, as its name tells.
#[derive(Clone, Copy)]
pub enum TileFunction {
    /// `LC_I`: the bits of a cell.
    Cell(u8),
    /// `NegClk`: the edge of the clock.
    FallingClock,
    /// `CarryInSet`: the carry into the first cell.
    CarrySet,
    /// `IOB_P.PINTYPE_K`: a digit of a pad's pin type, by the numbers of both.
    PinType(u8, u8),
    /// `IoCtrl.IE_P`: the input enable of a pad.
    InputEnable(u8),
    /// `IoCtrl.REN_P`: the pull-up of a pad.
    PullUp(u8),
    /// `ColBufCtrl.glb_netwk_N`: the column buffer of a global.
    ColumnBuffer(u8),
    /// `RamConfig.PowerUp`: 0 for a block RAM in use.
    PowerUp,
    /// `RamConfig.CBIT_K`: a digit of the modes of a block RAM's ports.
    RamMode(u8),
}

/// `LC_I`, the bits of a cell.
pub fn cell_function(cell: u8) -> [u8; 4]
    ensures { result ≡ cell_function cell }
{
    let mut name = *b"LC_0";
    name[3] = digit(cell);
    name
}

/// `NegClk`, the edge of the clock.
pub fn falling_clock_function() -> [u8; 6]
    ensures { result ≡ falling_clock_function }
{
    *b"NegClk"
}

/// `CarryInSet`, the carry into the first cell.
pub fn carry_set_function() -> [u8; 10]
    ensures { result ≡ carry_set_function }
{
    *b"CarryInSet"
}

/// `IOB_P.PINTYPE_K`, a digit of a pad's pin type.
pub fn pin_type_function(pio: u8, place: u8) -> [u8; 15]
    ensures { result ≡ pin_type_function pio place }
{
    let mut name = *b"IOB_0.PINTYPE_0";
    name[4] = digit(pio);
    name[14] = digit(place);
    name
}

/// `IoCtrl.IE_P`, the input enable of a pad.
pub fn input_enable_function(pio: u8) -> [u8; 11]
    ensures { result ≡ input_enable_function pio }
{
    let mut name = *b"IoCtrl.IE_0";
    name[10] = digit(pio);
    name
}

/// `IoCtrl.REN_P`, the pull-up of a pad.
pub fn pull_up_function(pio: u8) -> [u8; 12]
    ensures { result ≡ pull_up_function pio }
{
    let mut name = *b"IoCtrl.REN_0";
    name[11] = digit(pio);
    name
}

/// `ColBufCtrl.glb_netwk_N`, the column buffer of a global.
pub fn column_buffer_function(n: u8) -> [u8; 22]
    ensures { result ≡ column_buffer_function n }
{
    let mut name = *b"ColBufCtrl.glb_netwk_0";
    name[21] = digit(n);
    name
}

/// `RamConfig.PowerUp`, which is 0 for a block RAM in use.
pub fn power_up_function() -> [u8; 17]
    ensures { result ≡ power_up_function }
{
    *b"RamConfig.PowerUp"
}

/// `RamConfig.CBIT_K`, a digit of the modes of a block RAM's ports: 0 and 1 of the one that writes, 2 and 3 of the one that reads.
pub fn ram_mode_function(place: u8) -> [u8; 16]
    ensures { result ≡ ram_mode_function place }
{
    let mut name = *b"RamConfig.CBIT_0";
    name[15] = digit(place);
    name
}

// The digit of a pad's pin type, by what the name has behind the pad's digit.
fn pad_function(pio: u8, rest: &[u8]) -> Option<TileFunction>
    ensures { result ≡ pad_function pio rest.now }
{
    match number_behind(6, b".PINTYPE_", rest) {
        Some(place) => Some(TileFunction::PinType(pio, place)),
        None => None,
    }
}

// A function whose name has no number.
fn lone_function(name: &[u8]) -> Option<TileFunction>
    ensures { result ≡ lone_function name.now }
{
    if name == b"NegClk".as_slice() {
        return Some(TileFunction::FallingClock);
    }
    if name == b"CarryInSet".as_slice() {
        return Some(TileFunction::CarrySet);
    }
    if name == b"RamConfig.PowerUp".as_slice() {
        return Some(TileFunction::PowerUp);
    }
    None
}

/// The function that a name is of, or None exactly where it is no such name.
pub fn tile_function(name: &[u8]) -> Option<TileFunction>
    ensures { result ≡ tile_function name.now }
{
    if let Some(cell) = number_behind(8, b"LC_", name) {
        return Some(TileFunction::Cell(cell));
    }
    if let Some((pio, rest)) = number_within(2, b"IOB_", name) {
        return pad_function(pio, rest);
    }
    if let Some(pio) = number_behind(2, b"IoCtrl.IE_", name) {
        return Some(TileFunction::InputEnable(pio));
    }
    if let Some(pio) = number_behind(2, b"IoCtrl.REN_", name) {
        return Some(TileFunction::PullUp(pio));
    }
    if let Some(n) = number_behind(8, b"ColBufCtrl.glb_netwk_", name) {
        return Some(TileFunction::ColumnBuffer(n));
    }
    if let Some(place) = number_behind(4, b"RamConfig.CBIT_", name) {
        return Some(TileFunction::RamMode(place));
    }
    lone_function(name)
}

/// The names of the functions that are read are read as these functions, and no other names are: makers and reader are
/// inverse. The function does nothing: its contract is the law.
pub fn function_names_are_read()
    ensures { FunctionNamesAreRead }
{}

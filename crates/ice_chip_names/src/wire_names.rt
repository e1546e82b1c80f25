//! The names of the wires of cells, pads and block RAMs, and of globals, in a tile. Numbers in them are one digit long: a maker takes
//! the last digit of its number, and the reader takes no name whose number the tile doesn't have.
ghost use Rattle.std.specs.Prelude.{◌≡◌};
ghost use Rattle.ice_chip_names.specs.WireNames.{cell_wire, pad_wire, lone_wire, tile_wire, WireNamesAreRead, output_name, carry_out_name, look_up_name, clock_name, clock_enable_name, set_reset_name, carry_in_name, first_carry_name, fabout_name, global_name};
ghost use Rattle.ice_chip_names.specs.Names.{input_name, pad_input_name, pad_output_name, output_enable_name, input_clock_name, output_clock_name, in_out_enable_name};
ghost use Rattle.ice_chip_names.specs.FirstBytes.{may_be_wire};
ghost use Rattle.ice_chip_names.specs.WireNames.{ram_wire};

use crate::digits::{digit, number_behind, number_within};
use crate::ram_names::ram_number;

/// A wire of the cells, pads or block RAM of a tile, or a global, as its name in the tile tells.
#[derive(Clone, Copy)]
pub enum TileWire {
    /// `lutff_I/in_J`: an input of a cell, by the numbers of both.
    CellInput(u8, u8),
    /// `lutff_I/out`: the output of a cell.
    CellOutput(u8),
    /// `lutff_I/cout`: the carry out of a cell.
    CarryOut(u8),
    /// `lutff_I/lout`: the look-up table of a cell.
    LookUp(u8),
    /// `lutff_global/clk`: the clock of the cells.
    Clock,
    /// `lutff_global/cen`: the clock enable of the cells.
    ClockEnable,
    /// `lutff_global/s_r`: the set or reset of the cells.
    SetReset,
    /// `carry_in`: the carry out of the tile below.
    CarryIn,
    /// `carry_in_mux`: the carry into the first cell.
    FirstCarry,
    /// `io_P/D_IN_0`: what a pad gives to the chip.
    PadInput(u8),
    /// `io_P/D_OUT_0`: the level that a pad is driven with.
    PadOutput(u8),
    /// `io_P/OUT_ENB`: whether a pad is driven.
    OutputEnable(u8),
    /// `io_global/inclk`: the clock of the registers that take what pads give.
    InputClock,
    /// `io_global/outclk`: the clock of the registers that pads are driven with.
    OutputClock,
    /// `io_global/cen`: the enable of the registers of pads.
    InOutEnable,
    /// `fabout`: what feeds a global.
    Fabout,
    /// `glb_netwk_N`: a global.
    Global(u8),
    /// `ram/..`: a wire of a block RAM, by its number.
    Ram(u8),
}

/// `lutff_I/in_J`, an input of a cell.
pub fn input_name(cell: u8, input: u8) -> [u8; 12]
    ensures { result ≡ input_name cell input }
{
    let mut name = *b"lutff_0/in_0";
    name[6] = digit(cell);
    name[11] = digit(input);
    name
}

/// `lutff_I/out`, the output of a cell.
pub fn output_name(cell: u8) -> [u8; 11]
    ensures { result ≡ output_name cell }
{
    let mut name = *b"lutff_0/out";
    name[6] = digit(cell);
    name
}

/// `lutff_I/cout`, the carry out of a cell.
pub fn carry_out_name(cell: u8) -> [u8; 12]
    ensures { result ≡ carry_out_name cell }
{
    let mut name = *b"lutff_0/cout";
    name[6] = digit(cell);
    name
}

/// `lutff_I/lout`, the look-up table of a cell.
pub fn look_up_name(cell: u8) -> [u8; 12]
    ensures { result ≡ look_up_name cell }
{
    let mut name = *b"lutff_0/lout";
    name[6] = digit(cell);
    name
}

/// `lutff_global/clk`, the clock of the cells.
pub fn clock_name() -> [u8; 16]
    ensures { result ≡ clock_name }
{
    *b"lutff_global/clk"
}

/// `lutff_global/cen`, the clock enable of the cells.
pub fn clock_enable_name() -> [u8; 16]
    ensures { result ≡ clock_enable_name }
{
    *b"lutff_global/cen"
}

/// `lutff_global/s_r`, the set or reset of the cells.
pub fn set_reset_name() -> [u8; 16]
    ensures { result ≡ set_reset_name }
{
    *b"lutff_global/s_r"
}

/// `carry_in`, the carry out of the tile below.
pub fn carry_in_name() -> [u8; 8]
    ensures { result ≡ carry_in_name }
{
    *b"carry_in"
}

/// `carry_in_mux`, the carry into the first cell.
pub fn first_carry_name() -> [u8; 12]
    ensures { result ≡ first_carry_name }
{
    *b"carry_in_mux"
}

/// `io_P/D_IN_0`, what a pad gives to the chip.
pub fn pad_input_name(pio: u8) -> [u8; 11]
    ensures { result ≡ pad_input_name pio }
{
    let mut name = *b"io_0/D_IN_0";
    name[3] = digit(pio);
    name
}

/// `io_P/D_OUT_0`, the level that a pad is driven with.
pub fn pad_output_name(pio: u8) -> [u8; 12]
    ensures { result ≡ pad_output_name pio }
{
    let mut name = *b"io_0/D_OUT_0";
    name[3] = digit(pio);
    name
}

/// `io_P/OUT_ENB`, whether a pad is driven.
pub fn output_enable_name(pio: u8) -> [u8; 12]
    ensures { result ≡ output_enable_name pio }
{
    let mut name = *b"io_0/OUT_ENB";
    name[3] = digit(pio);
    name
}

/// `io_global/inclk`, the clock of the registers that take what the pads of a tile give.
pub fn input_clock_name() -> [u8; 15]
    ensures { result ≡ input_clock_name }
{
    *b"io_global/inclk"
}

/// `io_global/outclk`, the clock of the registers that the pads of a tile are driven with.
pub fn output_clock_name() -> [u8; 16]
    ensures { result ≡ output_clock_name }
{
    *b"io_global/outclk"
}

/// `io_global/cen`, the enable of the registers of the pads of a tile.
pub fn in_out_enable_name() -> [u8; 13]
    ensures { result ≡ in_out_enable_name }
{
    *b"io_global/cen"
}

/// `fabout`, what feeds a global.
pub fn fabout_name() -> [u8; 6]
    ensures { result ≡ fabout_name }
{
    *b"fabout"
}

/// `glb_netwk_N`, a global.
pub fn global_name(n: u8) -> [u8; 11]
    ensures { result ≡ global_name n }
{
    let mut name = *b"glb_netwk_0";
    name[10] = digit(n);
    name
}

// The wire of a cell, by what its name has behind the cell's digit.
fn cell_wire(cell: u8, pin: &[u8]) -> Option<TileWire>
    ensures { result ≡ cell_wire cell pin.now }
{
    if pin == b"/out".as_slice() {
        return Some(TileWire::CellOutput(cell));
    }
    if pin == b"/cout".as_slice() {
        return Some(TileWire::CarryOut(cell));
    }
    if pin == b"/lout".as_slice() {
        return Some(TileWire::LookUp(cell));
    }
    match number_behind(4, b"/in_", pin) {
        Some(input) => Some(TileWire::CellInput(cell, input)),
        None => None,
    }
}

// The wire of a pad, by what its name has behind the pad's digit.
fn pad_wire(pio: u8, pin: &[u8]) -> Option<TileWire>
    ensures { result ≡ pad_wire pio pin.now }
{
    if pin == b"/D_IN_0".as_slice() {
        return Some(TileWire::PadInput(pio));
    }
    if pin == b"/D_OUT_0".as_slice() {
        return Some(TileWire::PadOutput(pio));
    }
    if pin == b"/OUT_ENB".as_slice() {
        return Some(TileWire::OutputEnable(pio));
    }
    None
}

// A wire whose name has no number.
fn lone_wire(name: &[u8]) -> Option<TileWire>
    ensures { result ≡ lone_wire name.now }
{
    if name == b"lutff_global/clk".as_slice() {
        return Some(TileWire::Clock);
    }
    if name == b"lutff_global/cen".as_slice() {
        return Some(TileWire::ClockEnable);
    }
    if name == b"lutff_global/s_r".as_slice() {
        return Some(TileWire::SetReset);
    }
    if name == b"carry_in".as_slice() {
        return Some(TileWire::CarryIn);
    }
    if name == b"carry_in_mux".as_slice() {
        return Some(TileWire::FirstCarry);
    }
    if name == b"io_global/inclk".as_slice() {
        return Some(TileWire::InputClock);
    }
    if name == b"io_global/outclk".as_slice() {
        return Some(TileWire::OutputClock);
    }
    if name == b"io_global/cen".as_slice() {
        return Some(TileWire::InOutEnable);
    }
    if name == b"fabout".as_slice() {
        return Some(TileWire::Fabout);
    }
    None
}

// A wire of a block RAM.
fn ram_wire(name: &[u8]) -> Option<TileWire>
    ensures { result ≡ ram_wire name.now }
{
    match ram_number(name) {
        Some(wire) => Some(TileWire::Ram(wire)),
        None => None,
    }
}

// Whether the name has the first byte of a name of such a wire. Most names of wires haven't.
fn may_be_wire(name: &[u8]) -> bool
    ensures { result ≡ may_be_wire name.now }
{
    match name {
        [] => false,
        [a, ..] => {
            *a == b'l' || *a == b'i' || *a == b'g' || *a == b'c' || *a == b'f' || *a == b'r'
        }
    }
}

// The wire that a name in a tile is of.
fn named_wire(name: &[u8]) -> Option<TileWire>
    ensures { result ≡ tile_wire name.now }
{
    if let Some((cell, pin)) = number_within(8, b"lutff_", name) {
        return cell_wire(cell, pin);
    }
    if let Some((pio, pin)) = number_within(2, b"io_", name) {
        return pad_wire(pio, pin);
    }
    if let Some(n) = number_behind(8, b"glb_netwk_", name) {
        return Some(TileWire::Global(n));
    }
    match lone_wire(name) {
        Some(wire) => Some(wire),
        None => ram_wire(name),
    }
}

/// The wire that a name in a tile is of, or None exactly where it is no such name.
pub fn tile_wire(name: &[u8]) -> Option<TileWire>
    ensures { result ≡ tile_wire name.now }
{
    if !may_be_wire(name) {
        return None;
    }
    named_wire(name)
}

/// The names of the wires of a tile are read as these wires, and no other names are: makers and reader are inverse. The
/// function does nothing: its contract is the law.
pub fn wire_names_are_read()
    ensures { WireNamesAreRead }
{}

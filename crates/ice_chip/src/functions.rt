//! Which functions of a kind of tile are read or kept.
ghost use Rattle.std.specs.Prelude.{◌≡◌, map};
ghost use Rattle.ice_chip.specs.Views.{function_view};
ghost use Rattle.ice_chip.specs.Functions.{
  is_logic_cell,
  is_column_buffer,
  is_first_pin_type,
  is_second_pin_type,
  is_pad_enable,
  is_ram_function,
  is_read,
  is_of_pll,
  is_of_cascade,
  is_foreign,
  same_kind,
  function_line,
};

use crate::{Function, TileKind};
use ice_chip_names::number_behind;

/// Whether the name is that of a logic cell's bits.
pub fn is_logic_cell(name: &[u8]) -> bool
    ensures { result ≡ is_logic_cell name.now }
{
    number_behind(8, b"LC_", name).is_some()
}

// The column buffers of the eight globals.
fn is_column_buffer(name: &[u8]) -> bool
    ensures { result ≡ is_column_buffer name.now }
{
    number_behind(8, b"ColBufCtrl.glb_netwk_", name).is_some()
}

// The pin type of pad 0.
fn is_first_pin_type(name: &[u8]) -> bool
    ensures { result ≡ is_first_pin_type name.now }
{
    number_behind(6, b"IOB_0.PINTYPE_", name).is_some()
}

// The pin type of pad 1.
fn is_second_pin_type(name: &[u8]) -> bool
    ensures { result ≡ is_second_pin_type name.now }
{
    number_behind(6, b"IOB_1.PINTYPE_", name).is_some()
}

// The input enables and pull-ups of the two pads.
fn is_pad_enable(name: &[u8]) -> bool
    ensures { result ≡ is_pad_enable name.now }
{
    number_behind(2, b"IoCtrl.IE_", name).is_some()
        || number_behind(2, b"IoCtrl.REN_", name).is_some()
}

/// Whether this is a function of block RAMs in tiles of the kind: the edges of their clocks, whether they are in use, and the modes of
/// their ports. A chip may lack them.
pub fn is_ram_function(kind: TileKind, name: &[u8]) -> bool
    ensures { result ≡ is_ram_function kind name.now }
{
    match kind {
        TileKind::Io => false,
        TileKind::Logic => false,
        TileKind::RamBottom => {
            name == b"NegClk".as_slice() || name == b"RamConfig.PowerUp".as_slice()
        }
        TileKind::RamTop => {
            name == b"NegClk".as_slice() || number_behind(4, b"RamConfig.CBIT_", name).is_some()
        }
    }
}

/// Whether the function of this name is read in tiles of the kind.
pub fn is_read(kind: TileKind, name: &[u8]) -> bool
    ensures { result ≡ is_read kind name.now }
{
    match kind {
        TileKind::Io => {
            is_first_pin_type(name)
                || is_second_pin_type(name)
                || is_pad_enable(name)
                || is_column_buffer(name)
        }
        TileKind::Logic => {
            is_logic_cell(name)
                || name == b"NegClk".as_slice()
                || name == b"CarryInSet".as_slice()
                || is_column_buffer(name)
        }
        TileKind::RamBottom => is_ram_function(kind, name) || is_column_buffer(name),
        TileKind::RamTop => is_ram_function(kind, name) || is_column_buffer(name),
    }
}

// Whether the name begins with `PLL.`
fn is_of_pll(name: &[u8]) -> bool
    ensures { result ≡ is_of_pll name.now }
{
    match name {
        [a, b, c, d, ..] => *a == b'P' && *b == b'L' && *c == b'L' && *d == b'.',
        _ => false,
    }
}

// Whether the name begins with `RamCascade.`
fn is_of_cascade(name: &[u8]) -> bool
    ensures { result ≡ is_of_cascade name.now }
{
    name.starts_with(b"RamCascade.".as_slice())
}

/// Whether the function of this name is kept although it isn't read.
pub fn is_foreign(kind: TileKind, name: &[u8]) -> bool
    ensures { result ≡ is_foreign kind name.now }
{
    match kind {
        TileKind::Io => {
            is_of_pll(name) || name == b"IoCtrl.LVDS".as_slice() || name == b"NegClk".as_slice()
        }
        TileKind::Logic => false,
        TileKind::RamBottom => is_of_cascade(name),
        TileKind::RamTop => is_of_cascade(name),
    }
}

/// Whether two kinds are the same.
pub fn same_kind(a: TileKind, b: TileKind) -> bool
    ensures { result ≡ same_kind a b }
{
    match (a, b) {
        (TileKind::Io, TileKind::Io) => true,
        (TileKind::Logic, TileKind::Logic) => true,
        (TileKind::RamBottom, TileKind::RamBottom) => true,
        (TileKind::RamTop, TileKind::RamTop) => true,
        _ => false,
    }
}

/// The line of the first function of this kind and name. Read functions stand once, so that there are few such
/// questions in the reading of a text.
pub fn function_line(kind: TileKind, name: &[u8], functions: &[Function]) -> Option<u32>
    ensures { result ≡ function_line kind name.now (map function_view functions.now) }
{
    for function in functions {
        if same_kind(function.kind, kind) && function.name.as_bytes() == name {
            return Some(function.line);
        }
    }
    None
}

//! The names of bits, and the sections of the functions of tiles.
ghost use Rattle.std.specs.Prelude.{◌≡◌, ◌++◌, ◌+◌, ◌*◌, ◌<◌, ◌≤◌, decimal, OnOk};
ghost use Rattle.ice_base.specs.Lines.{text_of_lines};
ghost use Rattle.ice_sample.specs.Bits.{columns_of, bit_word, bit_words, function_row, function_rows, function_series, lone_function, io_bit_lines, logic_bit_lines};

use crate::grid::TileKind;
use crate::text::{end_line, put_line, put_worded};
use ice_base::NoMemory;

// How many columns of bits a tile of a kind has.
fn columns_of(kind: TileKind) -> u16
    ensures columns { result ≡ columns_of kind }
    ensures some { 0 < result }
{
    match kind {
        TileKind::Io => 18,
        TileKind::Logic => 54,
    }
}

// Writes a blank and the name of a bit.
fn put_bit(text: &mut Vec<u8>, columns: u16, bit: u16) -> Result<(), NoMemory>
    requires { 0 < columns }
    ensures { OnOk result (text.new.items ≡ text.old.items ++ bit_word columns bit) }
{
    put_worded(text, b" B", u64::from(bit / columns))?;
    put_worded(text, b"[", u64::from(bit % columns))?;
    text.push(b']')?;
    Ok(())
}

/// Writes the names of so many bits of a tile, from a number on, each behind a blank.
pub fn put_bits(text: &mut Vec<u8>, kind: TileKind, first: u16, count: u16) -> Result<(), NoMemory>
    requires { first + count ≤ 1000 }
    ensures { OnOk result
        (text.new.items ≡ text.old.items ++ bit_words (columns_of kind) first count) }
{
    let columns = columns_of(kind);
    for bit in 0..count {
        put_bit(text, columns, first + bit)?;
    }
    Ok(())
}

// Writes the row of a function of one bit.
fn put_function(text: &mut Vec<u8>, kind: TileKind, title: &[u8], bit: u16) -> Result<(), NoMemory>
    requires { bit ≤ 500 }
    ensures { OnOk result (text.new.items ≡ text.old.items
        ++ text_of_lines (function_rows (columns_of kind) bit (lone_function title.now))) }
{
    text.extend_from_slice(title)?;
    put_bits(text, kind, bit, 1)?;
    end_line(text)
}

// Writes the row of a function whose name ends in a number.
fn put_numbered_function(
    text: &mut Vec<u8>,
    kind: TileKind,
    title: &[u8],
    number: u16,
    first: u16,
    size: u16,
) -> Result<(), NoMemory>
    requires { first + size ≤ 1000 }
    ensures { OnOk result (text.new.items ≡ text.old.items ++ text_of_lines (function_row
        (columns_of kind) first (record { title = title.now ++ decimal number; size = size }))) }
{
    put_worded(text, title, u64::from(number))?;
    put_bits(text, kind, first, size)?;
    end_line(text)
}

// Writes the rows of so many functions of one size, whose names end in numbers from 0.
fn put_functions(
    text: &mut Vec<u8>,
    kind: TileKind,
    title: &[u8],
    count: u16,
    first: u16,
    size: u16,
) -> Result<(), NoMemory>
    requires few { count ≤ 8 }
    requires small { size ≤ 20 }
    requires first { first ≤ 500 }
    ensures { OnOk result (text.new.items ≡ text.old.items ++ text_of_lines
        (function_rows (columns_of kind) first (function_series title.now count size))) }
{
    let mut bit = first;
    for number in 0..count {
        put_numbered_function(text, kind, title, number, bit, size)?;
        bit += size;
    }
    Ok(())
}

/// Writes the section of the functions of IO tiles.
pub fn put_io_functions(text: &mut Vec<u8>) -> Result<(), NoMemory>
    ensures { OnOk result (text.new.items ≡ text.old.items ++ text_of_lines io_bit_lines) }
{
    put_line(text, b".io_tile_bits 18 16")?;
    put_functions(text, TileKind::Io, b"IOB_0.PINTYPE_", 6, 0, 1)?;
    put_functions(text, TileKind::Io, b"IOB_1.PINTYPE_", 6, 6, 1)?;
    put_function(text, TileKind::Io, b"IoCtrl.IE_0", 12)?;
    put_function(text, TileKind::Io, b"IoCtrl.REN_0", 13)?;
    put_function(text, TileKind::Io, b"IoCtrl.IE_1", 14)?;
    put_function(text, TileKind::Io, b"IoCtrl.REN_1", 15)
}

/// Writes the section of the functions of logic tiles.
pub fn put_logic_functions(text: &mut Vec<u8>) -> Result<(), NoMemory>
    ensures { OnOk result (text.new.items ≡ text.old.items ++ text_of_lines logic_bit_lines) }
{
    put_line(text, b".logic_tile_bits 54 16")?;
    put_functions(text, TileKind::Logic, b"LC_", 8, 0, 20)?;
    put_function(text, TileKind::Logic, b"NegClk", 160)?;
    put_function(text, TileKind::Logic, b"CarryInSet", 161)?;
    put_functions(text, TileKind::Logic, b"ColBufCtrl.glb_netwk_", 8, 162, 1)
}

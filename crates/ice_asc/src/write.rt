//! Writing the text of bits.
ghost use Rattle.std.specs.Prelude.{◌≡◌, ◌<◌, ◌^◌, ◌∷◌, [], ◌++◌, map, decimal, option_map, All, Ok, OnOk, OnErr};
ghost use Rattle.std.specs.List.{flat_map, range_with_len};
ghost use Rattle.ice_base.specs.Lines.{text_of_lines};
ghost use Rattle.ice_bits.specs.Configuration.{bit_at};
ghost use Rattle.ice_bits.specs.Grids.{IsOf};
ghost use Rattle.ice_asc.specs.Grammar.{asc_in};
ghost use Rattle.ice_asc.specs.Words.{heading_of_kind};
ghost use Rattle.ice_asc.specs.RoundTrip.{IsSmall};
ghost use Rattle.ice_asc.specs.Text.{digit_of_bit, row_line, tile_heading, tile_lines, content_heading, content_lines, extra_line, asc_text};
ghost use Rattle.ice_asc.specs.Hex.{row_digits};
ghost use Rattle.ice_bits.specs.ContentViews.{content_view};

use crate::hex::row_digit;
use crate::laws::written_is_read;
use ice_base::{BitAt, NoMemory, TileAt};
use ice_bits::{Bits, RamWord, TileBits};
use ice_chip::{Chip, Tile, TileKind};
use itoa::Buffer;

/// How many rows a tile has.
const ROWS: u8 = 16;

/// How many rows the words of a block RAM have.
const WORD_ROWS: u16 = 16;

/// How many digits such a row has.
const DIGITS: u16 = 64;

// Writes a line.
fn put_line(out: &mut Vec<u8>, line: &[u8]) -> Result<(), NoMemory>
    ensures { OnOk result (out.new.items ≡ out.old.items ++ text_of_lines (line.now ∷ [])) }
{
    out.extend_from_slice(line)?;
    out.push(b'\n')?;
    Ok(())
}

// Writes a number in decimal digits.
fn put_number(out: &mut Vec<u8>, number: u32) -> Result<(), NoMemory>
    ensures { OnOk result (out.new.items ≡ out.old.items ++ decimal number) }
{
    let mut buffer = Buffer::new();
    out.extend_from_slice(buffer.format(number).as_bytes())?;
    Ok(())
}

// Writes a space and a number.
fn put_field(out: &mut Vec<u8>, number: u32) -> Result<(), NoMemory>
    ensures written { OnOk result (out.new.items ≡ out.old.items ++ 32 ∷ decimal number) }
    ensures small { number < 2 ^ 32 }
{
    out.push(b' ')?;
    put_number(out, number)
}

// The heading of the tiles of a kind.
fn heading_of_kind(kind: TileKind) -> &'static [u8]
    ensures { result.now ≡ heading_of_kind kind }
{
    match kind {
        TileKind::Io => b".io_tile",
        TileKind::Logic => b".logic_tile",
        TileKind::RamBottom => b".ramb_tile",
        TileKind::RamTop => b".ramt_tile",
    }
}

// Writes the heading of a tile.
fn put_heading(out: &mut Vec<u8>, tile: &Tile) -> Result<(), NoMemory>
    ensures { OnOk result
        (out.new.items ≡ out.old.items ++ text_of_lines (tile_heading tile.now ∷ [])) }
{
    out.extend_from_slice(heading_of_kind(tile.kind))?;
    put_field(out, u32::from(tile.at.x))?;
    put_field(out, u32::from(tile.at.y))?;
    out.push(b'\n')?;
    Ok(())
}

fn digit_of_bit(bit: bool) -> u8
    ensures { result ≡ digit_of_bit bit }
{
    if bit { b'1' } else { b'0' }
}

// The bit at a place of a tile; 0 where there is no such tile.
fn bit_at(rows: Option<&TileBits>, bit: BitAt) -> bool
    ensures { result ≡ bit_at (option_map (λ rows. rows.now) rows.entry) bit }
{
    match rows {
        None => false,
        Some(rows) => rows.get(bit),
    }
}

// Writes a row of a tile, with so many columns.
fn put_row(out: &mut Vec<u8>, rows: Option<&TileBits>, columns: u8, row: u8) -> Result<(), NoMemory>
    ensures { OnOk result (out.new.items ≡ out.old.items ++ text_of_lines
        (row_line (bit_at (option_map (λ rows. rows.now) rows.entry)) columns row ∷ [])) }
{
    for col in 0..columns {
        out.push(digit_of_bit(bit_at(rows, BitAt { row, col })))?;
    }
    out.push(b'\n')?;
    Ok(())
}

// Writes the sixteen rows of a tile, with so many columns.
fn put_rows(out: &mut Vec<u8>, rows: Option<&TileBits>, columns: u8) -> Result<(), NoMemory>
    ensures { OnOk result (out.new.items ≡ out.old.items
        ++ text_of_lines (map (row_line (bit_at (option_map (λ rows. rows.now) rows.entry)) columns)
        (range_with_len 0 16))) }
{
    for row in 0..ROWS {
        put_row(out, rows, columns, row)?;
    }
    Ok(())
}

// Writes the heading of a tile and its rows.
fn put_tile(out: &mut Vec<u8>, bits: &Bits, tile: &Tile) -> Result<(), NoMemory>
    ensures { OnOk result
        (out.new.items ≡ out.old.items ++ text_of_lines (tile_lines bits.now tile.now)) }
{
    put_heading(out, tile)?;
    put_rows(out, bits.tile(tile.at), tile.kind.columns())?;
    Ok(())
}

// Writes the tiles in order.
fn put_tiles(out: &mut Vec<u8>, bits: &Bits, tiles: &[Tile]) -> Result<(), NoMemory>
    ensures { OnOk result (out.new.items
        ≡ out.old.items ++ text_of_lines (flat_map (tile_lines bits.now) tiles.now)) }
{
    for tile in tiles {
        put_tile(out, bits, tile)?;
    }
    Ok(())
}

// Writes the heading of a block RAM.
fn put_content_heading(out: &mut Vec<u8>, tile: TileAt) -> Result<(), NoMemory>
    ensures { OnOk result
        (out.new.items ≡ out.old.items ++ text_of_lines (content_heading tile ∷ [])) }
{
    out.extend_from_slice(b".ram_data")?;
    put_field(out, u32::from(tile.x))?;
    put_field(out, u32::from(tile.y))?;
    out.push(b'\n')?;
    Ok(())
}

// Writes a row of the words of a block RAM.
fn put_digits(out: &mut Vec<u8>, words: &[RamWord], row: u16) -> Result<(), NoMemory>
    requires { row < 16 }
    ensures { OnOk result
        (out.new.items ≡ out.old.items ++ text_of_lines (row_digits words.now row ∷ [])) }
{
    for place in 0..DIGITS {
        out.push(row_digit(words, row, place))?;
    }
    out.push(b'\n')?;
    Ok(())
}

// Writes the sixteen rows of the words of a block RAM.
fn put_words(out: &mut Vec<u8>, words: &[RamWord]) -> Result<(), NoMemory>
    ensures { OnOk result (out.new.items
        ≡ out.old.items ++ text_of_lines (map (row_digits words.now) (range_with_len 0 16))) }
{
    for row in 0..WORD_ROWS {
        put_digits(out, words, row)?;
    }
    Ok(())
}

// Writes the heading of a block RAM and its words.
fn put_content(out: &mut Vec<u8>, content: &(TileAt, Vec<RamWord>)) -> Result<(), NoMemory>
    ensures { OnOk result (out.new.items
        ≡ out.old.items ++ text_of_lines (content_lines (content_view content.now))) }
{
    put_content_heading(out, content.0)?;
    put_words(out, &content.1)?;
    Ok(())
}

// Writes the words of block RAMs in order.
fn put_contents(out: &mut Vec<u8>, contents: &[(TileAt, Vec<RamWord>)]) -> Result<(), NoMemory>
    ensures { OnOk result (out.new.items ≡ out.old.items ++ text_of_lines
        (flat_map (λ content. content_lines (content_view content)) contents.now)) }
{
    for content in contents {
        put_content(out, content)?;
    }
    Ok(())
}

// Writes an extra bit.
fn put_extra(out: &mut Vec<u8>, extra: &(u32, u32, u32)) -> Result<(), NoMemory>
    ensures written { OnOk result
        (out.new.items ≡ out.old.items ++ text_of_lines (extra_line extra.now ∷ [])) }
    ensures small { OnOk result (IsSmall extra.now) }
{
    out.extend_from_slice(b".extra_bit")?;
    put_field(out, extra.0)?;
    put_field(out, extra.1)?;
    put_field(out, extra.2)?;
    out.push(b'\n')?;
    Ok(())
}

// Writes the extra bits in order.
fn put_extras(out: &mut Vec<u8>, extras: &[(u32, u32, u32)]) -> Result<(), NoMemory>
    ensures written { OnOk result
        (out.new.items ≡ out.old.items ++ text_of_lines (map extra_line extras.now)) }
    ensures small { OnOk result (All IsSmall extras.now) }
{
    for extra in extras {
        put_extra(out, extra)?;
    }
    Ok(())
}

// Writes the text of the bits: a comment and the device, the tiles, the words of block RAMs, and the extra bits.
fn put_text(out: &mut Vec<u8>, bits: &Bits, chip: &Chip) -> Result<(), NoMemory>
    ensures written { OnOk result (out.new.items ≡ out.old.items ++ asc_text chip.now bits.now) }
    ensures small { OnOk result (All IsSmall bits.now.extras) }
{
    put_line(out, b".comment")?;
    put_line(out, b"placed and routed")?;
    put_line(out, b".device 1k")?;
    put_tiles(out, bits, chip.tiles())?;
    put_contents(out, bits.contents())?;
    put_extras(out, bits.extras())?;
    Ok(())
}

/// Appends the text of the bits: a comment and the device, each tile of the chip in order with its heading and sixteen
/// rows, the words of block RAMs in order, each with its heading and sixteen rows, and the extra bits in order. Where the bits are
/// of this chip, the text says exactly these bits. It is made apart from what it is appended to, so that want of memory changes
/// nothing.
///
/// # Errors
/// Want of memory alone.
pub fn write_asc(bits: &Bits, chip: &Chip, out: &mut Vec<u8>) -> Result<(), NoMemory>
    ensures written { OnOk result (out.new.items ≡ out.old.items ++ asc_text chip.now bits.now) }
    ensures read_back { OnOk result
        (IsOf chip.now bits.now → asc_in chip.now (asc_text chip.now bits.now) ≡ Ok bits.now) }
    ensures refused { OnErr result (out.new.items ≡ out.old.items) }
{
    chip.is_chip();
    written_is_read();
    let mut text = Vec::new(*out.allocator());
    put_text(&mut text, bits, chip)?;
    out.extend_from_slice(&text)?;
    Ok(())
}

//! The sections before the bits: the device, pins, globals, input enables, column buffers and tiles.
ghost use Rattle.std.specs.Prelude.{◌≡◌, ◌++◌, ◌+◌, ◌∷◌, [], ◌<◌, ◌≤◌, ◌^◌, take, length, codes, decimal, OnOk};
ghost use Rattle.ice_base.specs.Lines.{text_of_lines};
ghost use Rattle.ice_sample.specs.Lines.{number_words, place_words, placed_words};
ghost use Rattle.ice_sample.specs.Sections.{device_lines, pad_words, pin_lines, global_lines, input_enable_lines, column_buffer_lines, tile_heading, tile_lines};

use crate::grid::{Grid, Tile, TileKind};
use crate::pads::Pad;
use crate::text::{end_line, put_line, put_number, put_numbers, put_place, put_placed, put_worded};
use ice_base::{NoMemory, TileAt};

// Writes the line of a device of a size and so many wires.
fn put_size(text: &mut Vec<u8>, width: u16, height: u16, wires: u32) -> Result<(), NoMemory>
    ensures { OnOk result (text.new.items ≡ text.old.items ++ text_of_lines
        ((codes ".device 1k " ++ number_words width height ++ codes " " ++ decimal wires) ∷ [])) }
{
    text.extend_from_slice(b".device 1k ")?;
    put_numbers(text, u64::from(width), u64::from(height))?;
    put_worded(text, b" ", u64::from(wires))?;
    end_line(text)
}

/// Writes the section of the device.
pub fn put_device(text: &mut Vec<u8>, grid: &Grid) -> Result<(), NoMemory>
    ensures { OnOk result (text.new.items
        ≡ text.old.items ++ text_of_lines (device_lines grid.now.width grid.now.height)) }
{
    put_size(text, grid.width, grid.height, grid.wires)
}

// Writes a pad's place and its number there.
fn put_pad(text: &mut Vec<u8>, pad: Pad) -> Result<(), NoMemory>
    ensures { OnOk result (text.new.items ≡ text.old.items ++ pad_words pad) }
{
    put_placed(text, pad.at, u64::from(pad.pio))
}

// Writes the row of a pin.
fn put_pin(text: &mut Vec<u8>, pin: u64, pad: Pad) -> Result<(), NoMemory>
    ensures { OnOk result (text.new.items
        ≡ text.old.items ++ text_of_lines ((decimal pin ++ codes " " ++ pad_words pad) ∷ [])) }
{
    put_number(text, pin)?;
    text.push(b' ')?;
    put_pad(text, pad)?;
    end_line(text)
}

/// Writes the section of the pins.
pub fn put_pins(text: &mut Vec<u8>, pads: &[Pad]) -> Result<(), NoMemory>
    ensures { OnOk result (text.new.items ≡ text.old.items ++ text_of_lines (pin_lines pads.now)) }
{
    put_line(text, b".pins sample")?;
    let mut pin = 1;
    for pad in pads {
        put_pin(text, pin, *pad)?;
        pin += 1;
    }
    Ok(())
}

// The first eight of a list.
fn first_eight(places: &[TileAt]) -> &[TileAt]
    ensures { result.now ≡ take 8 places.now }
{
    if places.len() < 8 {
        places
    } else {
        &places[..8]
    }
}

// Writes the row of a global.
fn put_global(text: &mut Vec<u8>, global: u64, at: TileAt) -> Result<(), NoMemory>
    ensures { OnOk result
        (text.new.items ≡ text.old.items ++ text_of_lines (placed_words at global ∷ [])) }
{
    put_placed(text, at, global)?;
    end_line(text)
}

/// Writes the section of the inputs of globals, of the places of the IO tiles.
pub fn put_globals(text: &mut Vec<u8>, places: &[TileAt]) -> Result<(), NoMemory>
    ensures { OnOk result
        (text.new.items ≡ text.old.items ++ text_of_lines (global_lines places.now)) }
{
    put_line(text, b".gbufin")?;
    let mut global = 0;
    for at in first_eight(places) {
        put_global(text, global, *at)?;
        global += 1;
    }
    Ok(())
}

// Writes the row of the input enable of a pad.
fn put_input_enable(text: &mut Vec<u8>, pad: Pad) -> Result<(), NoMemory>
    ensures { OnOk result (text.new.items
        ≡ text.old.items ++ text_of_lines ((pad_words pad ++ codes " " ++ pad_words pad) ∷ [])) }
{
    put_pad(text, pad)?;
    text.push(b' ')?;
    put_pad(text, pad)?;
    end_line(text)
}

/// Writes the section of the input enables.
pub fn put_input_enables(text: &mut Vec<u8>, pads: &[Pad]) -> Result<(), NoMemory>
    ensures { OnOk result
        (text.new.items ≡ text.old.items ++ text_of_lines (input_enable_lines pads.now)) }
{
    put_line(text, b".ieren")?;
    for pad in pads {
        put_input_enable(text, *pad)?;
    }
    Ok(())
}

// Writes the row of the column buffers of the tile at a place.
fn put_column_buffer(text: &mut Vec<u8>, at: TileAt) -> Result<(), NoMemory>
    ensures { OnOk result (text.new.items
        ≡ text.old.items ++ text_of_lines ((place_words at ++ codes " " ++ place_words at) ∷ [])) }
{
    put_place(text, at)?;
    text.push(b' ')?;
    put_place(text, at)?;
    end_line(text)
}

/// Writes the section of the column buffers, of the places of the logic tiles.
pub fn put_column_buffers(text: &mut Vec<u8>, places: &[TileAt]) -> Result<(), NoMemory>
    ensures { OnOk result
        (text.new.items ≡ text.old.items ++ text_of_lines (column_buffer_lines places.now)) }
{
    put_line(text, b".colbuf")?;
    for at in places {
        put_column_buffer(text, *at)?;
    }
    Ok(())
}

// The heading of a tile of a kind, up to its place.
fn tile_heading(kind: TileKind) -> &'static [u8]
    ensures { result.now ≡ tile_heading kind }
{
    match kind {
        TileKind::Io => b".io_tile ",
        TileKind::Logic => b".logic_tile ",
    }
}

// Writes the section of a tile.
fn put_tile(text: &mut Vec<u8>, tile: Tile) -> Result<(), NoMemory>
    ensures { OnOk result (text.new.items
        ≡ text.old.items ++ text_of_lines ((tile_heading tile.kind ++ place_words tile.at) ∷ [])) }
{
    text.extend_from_slice(tile_heading(tile.kind))?;
    put_place(text, tile.at)?;
    end_line(text)
}

/// Writes the sections of the tiles.
pub fn put_tiles(text: &mut Vec<u8>, tiles: &[Tile]) -> Result<(), NoMemory>
    ensures { OnOk result
        (text.new.items ≡ text.old.items ++ text_of_lines (tile_lines tiles.now)) }
{
    for tile in tiles {
        put_tile(text, *tile)?;
    }
    Ok(())
}

//! What the headings of sections say.
ghost use Rattle.std.specs.Prelude.{◌≡◌, OnOk};
ghost use Rattle.ice_chip_read.specs.Lines.{
  sizes_in,
  begun_within,
  device_first,
  device_again,
  pins_heading,
  plain_heading,
  tile_heading,
  bits_heading,
  net_heading,
  switches_heading,
  heading_says,
  with_group,
};
ghost use Rattle.ice_chip_read.specs.PlainRows.{group_stands, net_comes};
ghost use Rattle.ice_chip_read.specs.Views.{Says, Gives, reading_view};

use crate::ChipStop;
use crate::bits::group_bits;
use crate::ranges::{tile_in, wire_in};
use crate::reading::{Reading, begin};
use crate::section::{Heading, Section};
use crate::words::{ended, number, one_word, three, two};
use ice_base::{NoMemory, PlainWords, RowNo, TileAt, WireNo, name_of};
use ice_chip::{BitList, ChipFault, Group, Package, TileKind, TileLine};
use indexmap::{IndexMap, IndexSet};
use std::alloc::Global;

// The most wires of a database.
const MOST_WIRES: u32 = 1_048_576;

// The most columns and rows of places.
const MOST_PLACES: u32 = 256;

// The width, the height and the number of wires of a `.device` line.
fn sizes(line: u32, mut words: PlainWords<'_>) -> Result<(u32, u32, u32), ChipFault>
    ensures { Says (λ sizes. sizes) result (sizes_in line words.entry) }
{
    let Some(name) = words.next() else {
        return Err(ChipFault::BadNumber { line });
    };
    let sizes = three(line, &mut words)?;
    ended(line, words)?;
    if name != b"1k".as_slice() {
        return Err(ChipFault::BadName { line });
    }
    Ok(sizes)
}

// A database of these sizes, within the limits.
fn begin_within(
    alloc: Global,
    line: u32,
    width: u32,
    height: u32,
    wires: u32,
) -> Result<Reading, ChipFault>
    ensures { Says reading_view result (begun_within line (width, height, wires)) }
{
    if wires > MOST_WIRES {
        return Err(ChipFault::TooMany { limit: MOST_WIRES });
    }
    if width > MOST_PLACES {
        return Err(ChipFault::TooMany { limit: MOST_PLACES });
    }
    if height > MOST_PLACES {
        return Err(ChipFault::TooMany { limit: MOST_PLACES });
    }
    Ok(begin(alloc, line, width as u16, height as u16, wires))
}

/// What is read behind the first section's heading, `.device`.
pub fn device_first(alloc: Global, line: u32, words: PlainWords<'_>) -> Result<Reading, ChipFault>
    ensures { Says reading_view result (device_first line words.entry) }
{
    let (width, height, wires) = sizes(line, words)?;
    begin_within(alloc, line, width, height, wires)
}

// A second `.device`, which is a fault in any case.
fn device_again(reading: &Reading, line: u32, words: PlainWords<'_>) -> Result<(), ChipFault>
    ensures { Says (λ _. reading_view reading.now) result
        (device_again (reading_view reading.now) line words.entry) }
{
    let _sizes = sizes(line, words)?;
    Err(ChipFault::Twice {
        line,
        other: reading.device,
    })
}

// `.pins PACKAGE`
fn pins_heading(
    alloc: Global,
    reading: &mut Reading,
    line: u32,
    words: PlainWords<'_>,
) -> Result<(), ChipStop>
    ensures { Gives (λ _. reading_view reading.new) result
        (pins_heading (reading_view reading.old) line words.entry) }
{
    let name = one_word(line, words)?;
    reading.pins = Package {
        name: name_of(alloc, name)?,
        pins: IndexMap::new(alloc),
        pads: IndexSet::new(alloc),
    };
    reading.section = Section::Pins;
    Ok(())
}

// A heading of one word.
fn plain_heading(
    reading: &mut Reading,
    section: Section,
    line: u32,
    words: PlainWords<'_>,
) -> Result<(), ChipFault>
    ensures { Says (λ _. reading_view reading.new) result
        (plain_heading (reading_view reading.old) section line words.entry) }
{
    ended(line, words)?;
    reading.section = section;
    Ok(())
}

// `.io_tile X Y` and its like
fn tile_heading(
    reading: &mut Reading,
    line: u32,
    kind: TileKind,
    mut words: PlainWords<'_>,
) -> Result<(), ChipStop>
    ensures { Gives (λ _. reading_view reading.new) result
        (tile_heading (reading_view reading.old) line kind words.entry) }
{
    let (x, y) = two(line, &mut words)?;
    ended(line, words)?;
    let tile = tile_in(line, &reading.parts, x, y)?;
    if let Some(old) = reading.parts.tile_at(tile) {
        return Err(ChipStop::Fault(ChipFault::Twice {
            line,
            other: old.line,
        }));
    }
    reading.parts.tiles.insert(tile, TileLine { kind, line })?;
    reading.section = Section::Rowless;
    Ok(())
}

// `.io_tile_bits C R` and its like
fn bits_heading(
    reading: &mut Reading,
    line: u32,
    kind: TileKind,
    mut words: PlainWords<'_>,
) -> Result<(), ChipFault>
    ensures { Says (λ _. reading_view reading.new) result
        (bits_heading (reading_view reading.old) line kind words.entry) }
{
    let (width, height) = two(line, &mut words)?;
    ended(line, words)?;
    if width != u32::from(kind.columns()) || height != 16 {
        return Err(ChipFault::OutOfRange { line });
    }
    reading.section = Section::Bits(kind);
    Ok(())
}

/// The section of the names of the wire of this number begins.
pub fn begin_names(reading: &mut Reading, line: u32, wire: u32) -> Result<(), ChipStop>
    ensures { Gives (λ _. reading_view reading.new) result
        (net_comes (reading_view reading.old) line wire) }
{
    let known = wire_in(line, &reading.parts, wire)?;
    if let Some(other) = reading.nets.get(&known) {
        return Err(ChipStop::Fault(ChipFault::Twice {
            line,
            other: *other,
        }));
    }
    reading.nets.insert(known, line)?;
    reading.section = Section::Names(known);
    Ok(())
}

// `.net N`
fn net_heading(reading: &mut Reading, line: u32, mut words: PlainWords<'_>) -> Result<(), ChipStop>
    ensures { Gives (λ _. reading_view reading.new) result
        (net_heading (reading_view reading.old) line words.entry) }
{
    let wire = number(line, &mut words)?;
    ended(line, words)?;
    begin_names(reading, line, wire)
}

// Room for the rows of a group of so many bits, as the known databases have them; for more it is found as they come.
fn room_for_rows(bits: usize) -> usize {
    match bits {
        0 | 1 => 1,
        2 => 4,
        3 | 4 => 8,
        _ => 16,
    }
}

// A group of these bits opens, at a place into the wire of this number.
fn open_group(
    alloc: Global,
    reading: &mut Reading,
    line: u32,
    tile: TileAt,
    wire: u32,
    bits: BitList,
) -> Result<(), NoMemory>
    ensures { OnOk result (reading_view reading.new
        ≡ with_group (reading_view reading.old) line tile wire bits.items) }
{
    let rows = Vec::with_capacity(alloc, room_for_rows(bits.len()))?;
    reading.group = Group {
        tile,
        wire: WireNo(wire),
        bits,
        first: RowNo(reading.rows),
        rows,
        line,
    };
    reading.section = Section::Switches;
    Ok(())
}

/// A group of these bits begins, at the place of these coordinates into the wire of this number.
pub fn begin_group(
    alloc: Global,
    reading: &mut Reading,
    line: u32,
    numbers: (u32, u32, u32),
    bits: BitList,
) -> Result<(), ChipStop>
    ensures { Gives (λ _. reading_view reading.new) result
        (group_stands (reading_view reading.old) line numbers bits.items) }
{
    let (x, y, wire) = numbers;
    let tile = tile_in(line, &reading.parts, x, y)?;
    let wire = wire_in(line, &reading.parts, wire)?;
    open_group(alloc, reading, line, tile, wire, bits)?;
    Ok(())
}

// `.buffer X Y DST B..` and `.routing X Y DST B..`
fn switches_heading(
    alloc: Global,
    reading: &mut Reading,
    line: u32,
    mut words: PlainWords<'_>,
) -> Result<(), ChipStop>
    ensures { Gives (λ _. reading_view reading.new) result
        (switches_heading (reading_view reading.old) line words.entry) }
{
    let (x, y, wire) = three(line, &mut words)?;
    let tile = tile_in(line, &reading.parts, x, y)?;
    let wire = wire_in(line, &reading.parts, wire)?;
    let bits = group_bits(alloc, line, words)?;
    open_group(alloc, reading, line, tile, wire, bits)?;
    Ok(())
}

/// What a heading says, behind the section before.
pub fn heading_line(
    alloc: Global,
    reading: &mut Reading,
    line: u32,
    heading: Heading,
    words: PlainWords<'_>,
) -> Result<(), ChipStop>
    ensures { Gives (λ _. reading_view reading.new) result
        (heading_says (reading_view reading.old) line heading words.entry) }
{
    match heading {
        Heading::Device => Ok(device_again(reading, line, words)?),
        Heading::Pins => pins_heading(alloc, reading, line, words),
        Heading::BufferInputs => Ok(plain_heading(reading, Section::BufferInputs, line, words)?),
        Heading::BufferPins => Ok(plain_heading(reading, Section::BufferPins, line, words)?),
        Heading::ExtraBits => Ok(plain_heading(reading, Section::ExtraBits, line, words)?),
        Heading::InputEnables => Ok(plain_heading(reading, Section::InputEnables, line, words)?),
        Heading::ColumnBuffers => Ok(plain_heading(reading, Section::ColumnBuffers, line, words)?),
        Heading::Tile(kind) => tile_heading(reading, line, kind, words),
        Heading::Bits(kind) => Ok(bits_heading(reading, line, kind, words)?),
        Heading::Net => net_heading(reading, line, words),
        Heading::Switches => switches_heading(alloc, reading, line, words),
        Heading::Other => {
            reading.section = Section::ReadOver;
            Ok(())
        }
    }
}

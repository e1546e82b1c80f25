//! What the rows of sections say.
ghost use Rattle.std.specs.Prelude.{◌≡◌, ◌∷◌, Ok, bytes_eq, map, length};
ghost use Rattle.std.specs.Map.{lookup};
ghost use Rattle.ice_chip.specs.Views.{package_view};
ghost use Rattle.ice_chip_read.specs.Lines.{
  pin_row,
  with_pin,
  buffer_input_row,
  buffer_pin_row,
  input_enable_row,
  column_buffer_row,
  kept_function,
  function_row,
  name_row,
  switch_row,
  row_says,
};
ghost use Rattle.ice_chip_read.specs.PlainRows.{name_comes, row_joins};
ghost use Rattle.ice_chip_read.specs.Views.{Gives, reading_view};

use crate::ChipStop;
use crate::bits::{bits, values};
use crate::extra_bits::extra_row;
use crate::ranges::{global_in, pad_in, tile_in, wire_in};
use crate::reading::Reading;
use crate::section::Section;
use crate::words::{ended, number, one_word, three, three_from, two, two_from};
use ice_base::{PlainWords, WireNo, name_of};
use ice_chip::{
    ChipFault, Function, NameRow, Package, Pad, Row, TileKind, ValueList, WireText, function_line,
    is_foreign, is_read,
};
use std::alloc::Global;

// The most switch rows of a database.
const MOST_ROWS: u32 = 16_777_216;

// A pin of a package; of repeated pins the first counts.
fn add_pin(alloc: Global, pins: &mut Package, pin: &[u8], pad: Pad) -> Result<(), ChipStop>
    ensures { Gives (λ _. package_view pins.new) result (Ok (with_pin (package_view pins.old)
        pin.now pad (lookup (bytes_eq pin.now) (package_view pins.old).pins))) }
{
    let pin = name_of(alloc, pin)?;
    if pins.pins.get(&pin).is_some() {
        return Ok(());
    }
    pins.pins.insert(pin, pad)?;
    pins.pads.insert_full(pad)?;
    Ok(())
}

// `PIN X Y PIO`
fn pin_row(
    alloc: Global,
    reading: &mut Reading,
    line: u32,
    pin: &[u8],
    mut words: PlainWords<'_>,
) -> Result<(), ChipStop>
    ensures { Gives (λ _. reading_view reading.new) result
        (pin_row (reading_view reading.old) line pin.now words.entry) }
{
    let (x, y, pio) = three(line, &mut words)?;
    ended(line, words)?;
    let pad = pad_in(line, &reading.parts, x, y, pio)?;
    add_pin(alloc, &mut reading.pins, pin, pad)
}

// `X Y GLB`
fn buffer_input_row(
    reading: &mut Reading,
    line: u32,
    first: &[u8],
    mut words: PlainWords<'_>,
) -> Result<(), ChipStop>
    ensures { Gives (λ _. reading_view reading.new) result
        (buffer_input_row (reading_view reading.old) line (first.now ∷ words.entry)) }
{
    let (x, y, global) = three_from(line, first, &mut words)?;
    ended(line, words)?;
    let tile = tile_in(line, &reading.parts, x, y)?;
    let global = global_in(line, global)?;
    reading.parts.gbufin.push((tile, global))?;
    Ok(())
}

// `X Y PIO GLB`
fn buffer_pin_row(
    reading: &mut Reading,
    line: u32,
    first: &[u8],
    mut words: PlainWords<'_>,
) -> Result<(), ChipStop>
    ensures { Gives (λ _. reading_view reading.new) result
        (buffer_pin_row (reading_view reading.old) line (first.now ∷ words.entry)) }
{
    let (x, y, pio) = three_from(line, first, &mut words)?;
    let global = number(line, &mut words)?;
    ended(line, words)?;
    let pad = pad_in(line, &reading.parts, x, y, pio)?;
    let global = global_in(line, global)?;
    reading.parts.gbufpin.push((pad, global))?;
    Ok(())
}

// `X Y PIO IX IY IPIO`
fn input_enable_row(
    reading: &mut Reading,
    line: u32,
    first: &[u8],
    mut words: PlainWords<'_>,
) -> Result<(), ChipStop>
    ensures { Gives (λ _. reading_view reading.new) result
        (input_enable_row (reading_view reading.old) line (first.now ∷ words.entry)) }
{
    let (x, y, pio) = three_from(line, first, &mut words)?;
    let (enable_x, enable_y, enable_pio) = three(line, &mut words)?;
    ended(line, words)?;
    let pad = pad_in(line, &reading.parts, x, y, pio)?;
    let enable = pad_in(line, &reading.parts, enable_x, enable_y, enable_pio)?;
    reading.parts.ieren.push((pad, enable))?;
    Ok(())
}

// `SX SY DX DY`
fn column_buffer_row(
    reading: &mut Reading,
    line: u32,
    first: &[u8],
    mut words: PlainWords<'_>,
) -> Result<(), ChipStop>
    ensures { Gives (λ _. reading_view reading.new) result
        (column_buffer_row (reading_view reading.old) line (first.now ∷ words.entry)) }
{
    let (source_x, source_y) = two_from(line, first, &mut words)?;
    let (x, y) = two(line, &mut words)?;
    ended(line, words)?;
    let source = tile_in(line, &reading.parts, source_x, source_y)?;
    let served = tile_in(line, &reading.parts, x, y)?;
    reading.parts.colbuf.push((source, served))?;
    Ok(())
}

// A function with its bits.
fn kept_function(
    alloc: Global,
    reading: &mut Reading,
    line: u32,
    kind: TileKind,
    name: &[u8],
    words: PlainWords<'_>,
) -> Result<(), ChipStop>
    ensures { Gives (λ _. reading_view reading.new) result
        (kept_function (reading_view reading.old) line kind name.now words.entry) }
{
    let bits = bits(alloc, line, kind.columns(), words)?;
    let name = name_of(alloc, name)?;
    reading.parts.functions.push(Function {
        kind,
        name,
        bits,
        line,
    })?;
    Ok(())
}

// `FUNCTION B..`
fn function_row(
    alloc: Global,
    reading: &mut Reading,
    line: u32,
    kind: TileKind,
    name: &[u8],
    words: PlainWords<'_>,
) -> Result<(), ChipStop>
    ensures { Gives (λ _. reading_view reading.new) result
        (function_row (reading_view reading.old) line kind name.now words.entry) }
{
    if is_read(kind, name) {
        if let Some(other) = function_line(kind, name, &reading.parts.functions) {
            return Err(ChipStop::Fault(ChipFault::Twice { line, other }));
        }
        return kept_function(alloc, reading, line, kind, name, words);
    }
    if is_foreign(kind, name) {
        return kept_function(alloc, reading, line, kind, name, words);
    }
    Ok(())
}

/// A wire has a name at the place of these coordinates.
pub fn push_name(
    alloc: Global,
    reading: &mut Reading,
    line: u32,
    wire: u32,
    at: (u32, u32),
    name: &[u8],
) -> Result<(), ChipStop>
    ensures { Gives (λ _. reading_view reading.new) result
        (name_comes (reading_view reading.old) line wire at name.now) }
{
    let tile = tile_in(line, &reading.parts, at.0, at.1)?;
    let name = WireText::new(alloc, name)?;
    reading.parts.names.push(NameRow {
        wire: WireNo(wire),
        tile,
        name,
        line,
    })?;
    Ok(())
}

// `X Y NAME`
fn name_row(
    alloc: Global,
    reading: &mut Reading,
    line: u32,
    wire: u32,
    first: &[u8],
    mut words: PlainWords<'_>,
) -> Result<(), ChipStop>
    ensures { Gives (λ _. reading_view reading.new) result
        (name_row (reading_view reading.old) line wire (first.now ∷ words.entry)) }
{
    let at = two_from(line, first, &mut words)?;
    let name = one_word(line, words)?;
    push_name(alloc, reading, line, wire, at, name)
}

/// A row of these values from this source joins the group that is open.
#[inline(always)]
pub fn push_row(
    reading: &mut Reading,
    line: u32,
    values: ValueList,
    source: u32,
) -> Result<(), ChipStop>
    ensures { Gives (λ _. reading_view reading.new) result
        (row_joins (reading_view reading.old) line values.items source) }
{
    if reading.rows >= MOST_ROWS {
        return Err(ChipStop::Fault(ChipFault::TooMany { limit: MOST_ROWS }));
    }
    reading.group.rows.push(Row {
        values,
        source: WireNo(source),
        line,
    })?;
    reading.rows += 1;
    Ok(())
}

// `VALUES SRC`
fn switch_row(
    alloc: Global,
    reading: &mut Reading,
    line: u32,
    digits: &[u8],
    mut words: PlainWords<'_>,
) -> Result<(), ChipStop>
    ensures { Gives (λ _. reading_view reading.new) result
        (switch_row (reading_view reading.old) line digits.now words.entry) }
{
    let source = number(line, &mut words)?;
    ended(line, words)?;
    let source = wire_in(line, &reading.parts, source)?;
    let values = values(alloc, line, reading.group.bits.len(), digits)?;
    push_row(reading, line, values, source)
}

/// What a row says in the section in which it stands.
pub fn row_line(
    alloc: Global,
    reading: &mut Reading,
    line: u32,
    first: &[u8],
    words: PlainWords<'_>,
) -> Result<(), ChipStop>
    ensures { Gives (λ _. reading_view reading.new) result
        (row_says (reading_view reading.old) line reading.old.section first.now words.entry) }
{
    match reading.section {
        Section::Rowless => Err(ChipStop::Fault(ChipFault::BadNumber { line })),
        Section::ReadOver => Ok(()),
        Section::Pins => pin_row(alloc, reading, line, first, words),
        Section::BufferInputs => buffer_input_row(reading, line, first, words),
        Section::BufferPins => buffer_pin_row(reading, line, first, words),
        Section::ExtraBits => extra_row(reading, line, first, words),
        Section::InputEnables => input_enable_row(reading, line, first, words),
        Section::ColumnBuffers => column_buffer_row(reading, line, first, words),
        Section::Bits(kind) => function_row(alloc, reading, line, kind, first, words),
        Section::Names(wire) => name_row(alloc, reading, line, wire, first, words),
        Section::Switches => switch_row(alloc, reading, line, first, words),
    }
}

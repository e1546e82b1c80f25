//! What the headings of sections say.
ghost use Rattle.ice_asc.specs.Grammar.{device_says, opened, tile_says, ram_opened, ram_says, extra_says, heading_says};
ghost use Rattle.ice_asc.specs.Words.{extra_of_words};
ghost use Rattle.ice_asc.specs.Views.{Says, Gives, reading_view};

use crate::fault::{AscFault, AscStop};
use crate::reading::Reading;
use crate::section::{Heading, Section};
use crate::words::{extra_of, tile_of};
use ice_base::{TileAt, WordIter};
use ice_bits::{TileBits, is_of_kind};
use ice_chip::{Chip, TileKind};
use ice_chip_rams::site_at;
use std::alloc::Global;

// `.device NAME`
fn device_line(reading: &mut Reading, mut words: WordIter<'_>) -> Result<(), AscFault>
    ensures { Says (λ _. reading_view reading.new) result
        (device_says (reading_view reading.old) words.entry) }
{
    let line = reading.line;
    let Some(name) = words.next() else {
        return Err(AscFault::OtherDevice { line });
    };
    if words.next().is_some() || name != b"1k".as_slice() {
        return Err(AscFault::OtherDevice { line });
    }
    reading.has_device = true;
    reading.section = Section::Nowhere;
    Ok(())
}

// Opens a tile, which must be its first heading.
fn open(alloc: Global, reading: &mut Reading, kind: TileKind, at: TileAt) -> Result<(), AscStop>
    ensures { Gives (λ _. reading_view reading.new) result
        (opened (reading_view reading.old) kind at) }
{
    let heading = reading.line;
    if !reading.seen.insert(at)? {
        return Err(AscStop::Fault(AscFault::TileTwice { line: heading }));
    }
    reading.rows = TileBits::new(alloc);
    reading.section = Section::Rows { heading, at, kind };
    Ok(())
}

// `.io_tile X Y` and its like
fn tile_line(
    alloc: Global,
    chip: &Chip,
    reading: &mut Reading,
    kind: TileKind,
    tile: Option<TileAt>,
) -> Result<(), AscStop>
    ensures { Gives (λ _. reading_view reading.new) result
        (tile_says chip.now (reading_view reading.old) kind tile) }
{
    let line = reading.line;
    let Some(at) = tile else {
        return Err(AscStop::Fault(AscFault::UnknownTile { line }));
    };
    if !is_of_kind(kind, chip.kind_at(at)) {
        return Err(AscStop::Fault(AscFault::UnknownTile { line }));
    }
    open(alloc, reading, kind, at)
}

// Opens a block RAM, which must be its first heading.
fn open_ram(reading: &mut Reading, at: TileAt) -> Result<(), AscStop>
    ensures { Gives (λ _. reading_view reading.new) result
        (ram_opened (reading_view reading.old) at) }
{
    let heading = reading.line;
    if !reading.filled.insert(at)? {
        return Err(AscStop::Fault(AscFault::TileTwice { line: heading }));
    }
    reading.words.clear();
    reading.section = Section::Words { heading, at };
    Ok(())
}

// `.ram_data X Y`
fn ram_line(chip: &Chip, reading: &mut Reading, tile: Option<TileAt>) -> Result<(), AscStop>
    ensures { Gives (λ _. reading_view reading.new) result
        (ram_says chip.now (reading_view reading.old) tile) }
{
    let line = reading.line;
    let Some(at) = tile else {
        return Err(AscStop::Fault(AscFault::UnknownTile { line }));
    };
    if site_at(chip, at).is_none() {
        return Err(AscStop::Fault(AscFault::UnknownTile { line }));
    }
    open_ram(reading, at)
}

// `.extra_bit B X Y`
fn extra_line(reading: &mut Reading, words: WordIter<'_>) -> Result<(), AscStop>
    ensures { Gives (λ _. reading_view reading.new) result
        (extra_says (reading_view reading.old) (extra_of_words words.entry)) }
{
    let Some(extra) = extra_of(words) else {
        return Err(AscStop::Fault(AscFault::BadRow { line: reading.line }));
    };
    reading.bits.add_extra(extra)?;
    reading.section = Section::Nowhere;
    Ok(())
}

/// What a heading says, behind the section before.
pub fn heading_line(
    alloc: Global,
    chip: &Chip,
    reading: &mut Reading,
    heading: Heading,
    words: WordIter<'_>,
) -> Result<(), AscStop>
    ensures { Gives (λ _. reading_view reading.new) result
        (heading_says chip.now (reading_view reading.old) heading words.entry) }
{
    match heading {
        Heading::Device => Ok(device_line(reading, words)?),
        Heading::Tile(kind) => {
            if !reading.has_device {
                return Err(AscStop::Fault(AscFault::NoDevice { line: reading.line }));
            }
            tile_line(alloc, chip, reading, kind, tile_of(words))
        }
        Heading::RamData => {
            if !reading.has_device {
                return Err(AscStop::Fault(AscFault::NoDevice { line: reading.line }));
            }
            ram_line(chip, reading, tile_of(words))
        }
        Heading::ExtraBit => extra_line(reading, words),
        Heading::Symbol => {
            reading.section = Section::Nowhere;
            Ok(())
        }
        Heading::Other => {
            reading.section = Section::ReadOver;
            Ok(())
        }
    }
}

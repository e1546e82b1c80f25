//! The rows of a tile, and of the words of a block RAM.
ghost use Rattle.std.specs.Prelude.{◌≡◌, OnOk};
ghost use Rattle.ice_asc.specs.Grammar.{with_row, row_says, with_words, words_row_says};
ghost use Rattle.ice_asc.specs.Views.{Gives, reading_view};

use crate::fault::AscStop;
use crate::hex::{add_words, row_values};
use crate::reading::Reading;
use crate::section::Section;
use crate::words::row_of;
use ice_base::{NoMemory, TileAt, WordIter};
use ice_bits::TileBits;
use ice_chip::TileKind;
use std::alloc::Global;
use std::mem;

/// How many rows a tile has.
const ROWS: usize = 16;

/// How many words a block RAM has.
const WORDS: usize = 256;

// Ends the tile that is open, where it has all its rows.
fn close_full(alloc: Global, reading: &mut Reading, heading: u32, at: TileAt, kind: TileKind)
    ensures { reading_view reading.new
        ≡ with_row (reading_view reading.old) heading at kind (reading_view reading.old).rows }
{
    if reading.rows.rows().len() == ROWS {
        let rows = mem::replace(&mut reading.rows, TileBits::new(alloc));
        reading.bits.set_tile(at, rows);
        reading.section = Section::Nowhere;
        return;
    }
    reading.section = Section::Rows { heading, at, kind };
}

/// A line of the tile that is open: the heading of the tile stands in that line, and it is of that kind.
pub fn row_line(
    alloc: Global,
    reading: &mut Reading,
    heading: u32,
    at: TileAt,
    kind: TileKind,
    word: &[u8],
    others: WordIter<'_>,
) -> Result<(), AscStop>
    ensures { Gives (λ _. reading_view reading.new) result
        (row_says (reading_view reading.old) heading at kind word.now others.entry) }
{
    let row = row_of(alloc, reading.line, kind.columns(), word, others)?;
    reading.rows.push(row)?;
    close_full(alloc, reading, heading, at, kind);
    Ok(())
}

// Ends the block RAM that is open, where it has all its words.
fn close_full_ram(
    alloc: Global,
    reading: &mut Reading,
    heading: u32,
    at: TileAt,
) -> Result<(), NoMemory>
    ensures { OnOk result (reading_view reading.new
        ≡ with_words (reading_view reading.old) heading at (reading_view reading.old).words) }
{
    if reading.words.len() == WORDS {
        let words = mem::replace(&mut reading.words, Vec::new(alloc));
        reading.bits.add_content(at, words)?;
        reading.section = Section::Nowhere;
        return Ok(());
    }
    reading.section = Section::Words { heading, at };
    Ok(())
}

/// A line of the block RAM that is open: its heading stands in that line.
pub fn words_line(
    alloc: Global,
    reading: &mut Reading,
    heading: u32,
    at: TileAt,
    word: &[u8],
    others: WordIter<'_>,
) -> Result<(), AscStop>
    ensures { Gives (λ _. reading_view reading.new) result
        (words_row_says (reading_view reading.old) heading at word.now others.entry) }
{
    let values = row_values(alloc, reading.line, word, others)?;
    add_words(&values, &mut reading.words)?;
    close_full_ram(alloc, reading, heading, at)?;
    Ok(())
}

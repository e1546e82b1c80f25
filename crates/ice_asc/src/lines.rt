//! What the lines of a text of bits say.
ghost use Rattle.ice_base.specs.Text.{words};
ghost use Rattle.ice_asc.specs.Grammar.{words_say, line_says, lines_say, at_line};
ghost use Rattle.ice_asc.specs.Views.{Gives, reading_view};

use crate::fault::{AscFault, AscStop};
use crate::headings::heading_line;
use crate::reading::Reading;
use crate::rows::{row_line, words_line};
use crate::section::{Section, heading_named};
use ice_base::{Line, LineIter, WordIter, begins_with, words_of};
use ice_chip::Chip;
use std::alloc::Global;

// A line with words.
fn line_with_words(
    alloc: Global,
    chip: &Chip,
    reading: &mut Reading,
    word: &[u8],
    others: WordIter<'_>,
) -> Result<(), AscStop>
    ensures { Gives (λ _. reading_view reading.new) result (words_say chip.now
        (reading_view reading.old) (reading_view reading.old).section word.now others.entry) }
{
    match reading.section {
        Section::Rows { heading, at, kind } => {
            row_line(alloc, reading, heading, at, kind, word, others)
        }
        Section::Words { heading, at } => { words_line(alloc, reading, heading, at, word, others) }
        Section::ReadOver => {
            if !begins_with(b'.', word) {
                return Ok(());
            }
            heading_line(alloc, chip, reading, heading_named(word), others)
        }
        Section::Nowhere => {
            if !begins_with(b'.', word) {
                return Err(AscStop::Fault(AscFault::UnknownWord { line: reading.line }));
            }
            heading_line(alloc, chip, reading, heading_named(word), others)
        }
    }
}

// One line more.
fn take_line(
    alloc: Global,
    chip: &Chip,
    reading: &mut Reading,
    line: Line<'_>,
) -> Result<(), AscStop>
    ensures { Gives (λ _. reading_view reading.new) result (line_says chip.now
        (at_line (reading_view reading.old) line.entry.number) (words line.entry.text.now)) }
{
    reading.line = line.number;
    let mut words = words_of(line.text);
    match words.next() {
        None => Ok(()),
        Some(word) => line_with_words(alloc, chip, reading, word, words),
    }
}

/// All these lines more.
pub fn take_lines(
    alloc: Global,
    chip: &Chip,
    reading: &mut Reading,
    lines: LineIter<'_>,
) -> Result<(), AscStop>
    ensures { Gives (λ _. reading_view reading.new) result
        (lines_say chip.now (reading_view reading.old) lines.entry) }
{
    for line in lines {
        take_line(alloc, chip, reading, line)?;
    }
    Ok(())
}

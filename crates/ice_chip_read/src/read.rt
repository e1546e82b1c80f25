//! Reading a chip text to the rows of its database.
ghost use Rattle.std.specs.Prelude.{◌≡◌, ◌∷◌, IfOk, OnOk};
ghost use Rattle.ice_chip.specs.Answers.{Answers, chip_of};
ghost use Rattle.ice_chip.specs.Views.{parts_view};
ghost use Rattle.ice_chip_read.specs.Lines.{chip_line_says, chip_lines_say, first_says, plain_says, with_closed};
ghost use Rattle.ice_chip_read.specs.Reading.{closed};
ghost use Rattle.ice_chip_read.specs.Whole.{chip_says, AreReadOfLines};
ghost use Rattle.ice_chip_read.specs.Views.{Says, Gives, reading_view};

use crate::ChipStop;
use crate::headings::{device_first, heading_line};
use crate::reading::{Reading, close};
use crate::rows::row_line;
use crate::section::heading_named;
use ice_base::{NoMemory, PlainLine, PlainLines, begins_with, lines_of, plain_lines};
use ice_chip::{Chip, ChipFault, ChipParts};
use ice_chip_build::build;
use std::alloc::Global;

/// One line more. After an error what is read is of no use.
///
/// # Errors
/// The line's fault, or want of memory.
pub fn take_line(alloc: Global, reading: &mut Reading, line: PlainLine<'_>) -> Result<(), ChipStop>
    ensures { Gives (λ _. reading_view reading.new) result (chip_line_says
        (reading_view reading.old) line.entry.number (line.entry.first.now ∷ line.entry.others)) }
{
    if begins_with(b'.', line.first) {
        close(alloc, reading)?;
        return heading_line(
            alloc,
            reading,
            line.number,
            heading_named(line.first),
            line.others,
        );
    }
    row_line(alloc, reading, line.number, line.first, line.others)
}

/// What is read behind the first line that has words.
///
/// # Errors
/// The line's fault.
pub fn take_first(alloc: Global, line: PlainLine<'_>) -> Result<Reading, ChipFault>
    ensures { Says reading_view result
        (first_says line.entry.number (line.entry.first.now ∷ line.entry.others)) }
{
    if line.first != b".device".as_slice() {
        return Err(ChipFault::NoDevice { line: line.number });
    }
    device_first(alloc, line.number, line.others)
}

// All these lines more.
fn take_lines(alloc: Global, reading: &mut Reading, lines: PlainLines<'_>) -> Result<(), ChipStop>
    ensures { Gives (λ _. reading_view reading.new) result
        (chip_lines_say (reading_view reading.old) lines.entry) }
{
    for line in lines {
        take_line(alloc, reading, line)?;
    }
    Ok(())
}

// What is read of all these lines.
fn read_lines(alloc: Global, mut lines: PlainLines<'_>) -> Result<Reading, ChipStop>
    ensures { Gives reading_view result (plain_says lines.entry) }
{
    let Some(first) = lines.next() else {
        return Err(ChipStop::Fault(ChipFault::NoDevice { line: 0 }));
    };
    let mut reading = take_first(alloc, first)?;
    match take_lines(alloc, &mut reading, lines) {
        Ok(()) => Ok(reading),
        Err(stop) => {
            drop(reading);
            Err(stop)
        }
    }
}

// Ends the section that is open behind the last line.
fn close_last(alloc: Global, reading: &mut Reading) -> Result<(), NoMemory>
    ensures { OnOk result (with_closed (reading_view reading.old) ≡ reading_view reading.new) }
{
    match close(alloc, reading) {
        Ok(()) => Ok(()),
        Err(_) => Err(NoMemory),
    }
}

// The rows that are read of all lines.
fn closed_rows(alloc: Global, mut reading: Reading) -> Result<ChipParts, NoMemory>
    ensures { IfOk result (λ parts. closed (reading_view reading) ≡ parts_view parts) }
{
    let closed = close_last(alloc, &mut reading);
    let Reading {
        parts,
        nets,
        group,
        pins,
        ..
    } = reading;
    drop(nets);
    drop(group);
    drop(pins);
    closed.and(Ok(parts))
}

/// The chip of the rows that are read of all lines, or the first fault of the whole.
///
/// # Errors
/// The fault, or want of memory.
pub fn finish(alloc: Global, reading: Reading) -> Result<Chip, ChipFault>
    requires { AreReadOfLines (reading_view reading) }
    ensures { Answers result (chip_of (closed (reading_view reading))) }
{
    let parts = closed_rows(alloc, reading)?;
    build(alloc, parts)
}

/// The chip that the text of a chip database writes, or its first fault.
///
/// A fault of a line comes before every fault of a later line, and the faults of the whole, which rows far apart make
/// together, come behind all faults of lines. Of several faults of one line, and of the whole, the first in the list of
/// [`ChipFault`] is answered. Want of memory may come before any of them.
pub fn read_chip(alloc: Global, text: &[u8]) -> Result<Chip, ChipFault>
    ensures { Answers result (chip_says text.now) }
{
    match read_lines(alloc, plain_lines(lines_of(text))) {
        Ok(reading) => finish(alloc, reading),
        Err(stop) => Err(ChipFault::from(stop)),
    }
}

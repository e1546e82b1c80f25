//! Lines by their bytes. Nearly all lines of a database are rows of switches, names, headings of groups and wires, and lines
//! without a byte, each in one form, which are taken in place.
ghost use Rattle.std.specs.Prelude.{◌≡◌, IfNone, IfSome};
ghost use Rattle.ice_base.specs.Text.{uncommented, words};
ghost use Rattle.ice_chip_read.specs.Fronts.{IsTaken};
ghost use Rattle.ice_chip_read.specs.Lines.{chip_line_says, with_closed};
ghost use Rattle.ice_chip_read.specs.PlainRows.{group_stands, net_comes, row_comes};
ghost use Rattle.ice_chip_read.specs.Views.{Gives, reading_view};
ghost use Rattle.ice_chip_read.specs.declared.section.Section.TheVariants.{Names, Switches};

use crate::ChipStop;
use crate::bits::few_values;
use crate::front::{behind_byte, group_ahead, name_row_ahead, net_ahead, row_ahead};
use crate::headings::{begin_group, begin_names};
use crate::ranges::wire_in;
use crate::read::take_line;
use crate::reading::{Reading, close};
use crate::rows::{push_name, push_row};
use crate::section::Section;
use ice_base::{PlainLine, plain_words_of};
use ice_chip::{BitList, ValueList};
use std::alloc::Global;

/// What came of the line at the front of a text, and what is behind its line feed.
pub type Taken<'a> = (Result<(), ChipStop>, &'a [u8]);

/// One line more, of this number, by its bytes, which may have no words. After an error what is read is of no use.
///
/// # Errors
/// The line's fault, or want of memory.
pub fn take_text(
    alloc: Global,
    reading: &mut Reading,
    number: u32,
    text: &[u8],
) -> Result<(), ChipStop>
    ensures { Gives (λ _. reading_view reading.new) result
        (chip_line_says (reading_view reading.old) number (uncommented (words text.now))) }
{
    let mut words = plain_words_of(text);
    let Some(first) = words.next() else {
        return Ok(());
    };
    let line = PlainLine {
        number,
        first,
        others: words,
    };
    take_line(alloc, reading, line)
}

// The heading of the wire of this number.
fn take_net(alloc: Global, reading: &mut Reading, number: u32, wire: u32) -> Result<(), ChipStop>
    ensures { Gives (λ _. reading_view reading.new) result
        (net_comes (with_closed (reading_view reading.old)) number wire) }
{
    close(alloc, reading)?;
    begin_names(reading, number, wire)
}

// The heading of a group of these bits.
fn take_group(
    alloc: Global,
    reading: &mut Reading,
    number: u32,
    numbers: (u32, u32, u32),
    bits: BitList,
) -> Result<(), ChipStop>
    ensures { Gives (λ _. reading_view reading.new) result
        (group_stands (with_closed (reading_view reading.old)) number numbers bits.items) }
{
    close(alloc, reading)?;
    begin_group(alloc, reading, number, numbers, bits)
}

// A row of these values from the wire of this number.
fn take_values(
    reading: &mut Reading,
    number: u32,
    values: ValueList,
    source: u32,
) -> Result<(), ChipStop>
    ensures { Gives (λ _. reading_view reading.new) result
        (row_comes (reading_view reading.old) number values.items source) }
{
    let source = wire_in(number, &reading.parts, source)?;
    push_row(reading, number, values, source)
}

// Takes a line without a byte, which changes nothing.
fn take_empty<'a>(reading: &Reading, number: u32, text: &'a [u8]) -> Option<Taken<'a>>
    ensures { IfSome result (λ taken. IsTaken (reading_view reading.now)
        (reading_view reading.now) number text.now taken.0 taken.1.now) }
{
    let (_reading, _number) = (reading, number);
    let behind = behind_byte(b'\n', text)?;
    Some((Ok(()), behind))
}

// Takes a heading of a wire or a group.
fn take_heading<'a>(
    alloc: Global,
    reading: &mut Reading,
    number: u32,
    text: &'a [u8],
) -> Option<Taken<'a>>
    ensures taken { IfSome result (λ taken. IsTaken (reading_view reading.old)
        (reading_view reading.new) number text.now taken.0 taken.1.now) }
    ensures same { IfNone result (reading_view reading.new ≡ reading_view reading.old) }
{
    if let Some((wire, behind)) = net_ahead(text) {
        return Some((take_net(alloc, reading, number, wire), behind));
    }
    let (numbers, bits, behind) = group_ahead(alloc, text)?;
    Some((take_group(alloc, reading, number, numbers, bits), behind))
}

// Takes a line that is no row.
fn take_other<'a>(
    alloc: Global,
    reading: &mut Reading,
    number: u32,
    text: &'a [u8],
) -> Option<Taken<'a>>
    ensures taken { IfSome result (λ taken. IsTaken (reading_view reading.old)
        (reading_view reading.new) number text.now taken.0 taken.1.now) }
    ensures same { IfNone result (reading_view reading.new ≡ reading_view reading.old) }
{
    match take_empty(reading, number, text) {
        Some(taken) => Some(taken),
        None => take_heading(alloc, reading, number, text),
    }
}

// Takes a row of the group that is open.
fn take_row<'a>(
    alloc: Global,
    reading: &mut Reading,
    number: u32,
    text: &'a [u8],
) -> Option<Taken<'a>>
    requires { reading.old.section ≡ Switches }
    ensures taken { IfSome result (λ taken. IsTaken (reading_view reading.old)
        (reading_view reading.new) number text.now taken.0 taken.1.now) }
    ensures same { IfNone result (reading_view reading.new ≡ reading_view reading.old) }
{
    let (digits, source, behind) = row_ahead(reading.group.bits.len(), text)?;
    let values = few_values(alloc, digits)?;
    Some((take_values(reading, number, values, source), behind))
}

// Takes a name of the wire whose names are open.
fn take_name<'a>(
    alloc: Global,
    reading: &mut Reading,
    number: u32,
    wire: u32,
    text: &'a [u8],
) -> Option<Taken<'a>>
    requires { reading.old.section ≡ Names wire }
    ensures taken { IfSome result (λ taken. IsTaken (reading_view reading.old)
        (reading_view reading.new) number text.now taken.0 taken.1.now) }
    ensures same { IfNone result (reading_view reading.new ≡ reading_view reading.old) }
{
    let (at, name, behind) = name_row_ahead(text)?;
    Some((push_name(alloc, reading, number, wire, at, name), behind))
}

// Takes a row of the section that is open.
fn take_open<'a>(
    alloc: Global,
    reading: &mut Reading,
    number: u32,
    text: &'a [u8],
) -> Option<Taken<'a>>
    ensures taken { IfSome result (λ taken. IsTaken (reading_view reading.old)
        (reading_view reading.new) number text.now taken.0 taken.1.now) }
    ensures same { IfNone result (reading_view reading.new ≡ reading_view reading.old) }
{
    match reading.section {
        Section::Switches => take_row(alloc, reading, number, text),
        Section::Names(wire) => take_name(alloc, reading, number, wire, text),
        _ => None,
    }
}

/// Takes the line at the front of a text, of this number, where it has one of the forms in which databases have most of their lines:
/// what came of it, and what is behind its line feed. Otherwise nothing is taken. After an error what is read is of no use.
#[inline(always)]
pub fn take_ahead<'a>(
    alloc: Global,
    reading: &mut Reading,
    number: u32,
    text: &'a [u8],
) -> Option<Taken<'a>>
    ensures taken { IfSome result (λ taken. IsTaken (reading_view reading.old)
        (reading_view reading.new) number text.now taken.0 taken.1.now) }
    ensures same { IfNone result (reading_view reading.new ≡ reading_view reading.old) }
{
    match take_open(alloc, reading, number, text) {
        Some(taken) => Some(taken),
        None => take_other(alloc, reading, number, text),
    }
}

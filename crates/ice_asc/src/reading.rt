//! What is read of a text of bits up to a line.
ghost use Rattle.std.specs.Prelude.{◌≡◌, Ok, IfOk};
ghost use Rattle.ice_asc.specs.Grammar.{start, end_says};
ghost use Rattle.ice_asc.specs.Views.{Says, reading_view};

use crate::AscFault;
use crate::section::Section;
use ice_base::{NoMemory, TileAt};
use ice_bits::{Bits, RamWord, TileBits, blank};
use ice_chip::Chip;
use indexmap::IndexSet;
use std::alloc::Global;

/// What is read up to a line.
#[derive(Drop)]
pub struct Reading {
    /// The number of the last line.
    pub line: u32,
    /// Whether a line names the device.
    pub has_device: bool,
    /// What takes the next line.
    pub section: Section,
    /// The rows so far of the tile that is open.
    pub rows: TileBits,
    /// The words so far of the block RAM that is open.
    pub words: Vec<RamWord>,
    /// The tiles that have had a heading.
    pub seen: IndexSet<TileAt>,
    /// The lower tiles of the block RAMs that have had one.
    pub filled: IndexSet<TileAt>,
    /// The bits.
    pub bits: Bits,
}

/// What is read before the first line: all bits of the chip are 0.
pub fn begin(alloc: Global, chip: &Chip) -> Result<Reading, NoMemory>
    ensures { IfOk result (λ reading. reading_view reading ≡ start chip.now) }
{
    Ok(Reading {
        line: 0,
        has_device: false,
        section: Section::Nowhere,
        rows: TileBits::new(alloc),
        words: Vec::new(alloc),
        seen: IndexSet::new(alloc),
        filled: IndexSet::new(alloc),
        bits: blank(alloc, chip)?,
    })
}

/// The bits at the end of the text.
pub fn end(reading: Reading) -> Result<Bits, AscFault>
    ensures { Says (λ bits. bits) result (end_says (reading_view reading) reading.section) }
{
    if let Section::Rows { heading, .. } | Section::Words { heading, .. } = reading.section {
        drop(reading);
        return Err(AscFault::Truncated { line: heading });
    }
    if !reading.has_device {
        let line = reading.line;
        drop(reading);
        return Err(AscFault::NoDevice { line });
    }
    Ok(reading.bits)
}

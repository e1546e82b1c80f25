//! How many signals a cluster reads.

use ice_anneal_reach::Span;
use ice_base::NoMemory;
use ice_cells::{LogicCell, Root};
use std::alloc::Global;

/// How many signals come into a tile without trouble: it has 32 wires for them, which are not free to choose.
const MOST_SIGNALS: u32 = 28;

/// What cells read, and which signals were seen in this count: those whose stamp is that of the count.
#[derive(Drop)]
pub struct Signals {
    // The numbers of the signals that cells read, cell by cell, and where those of each cell stand.
    reads: Vec<u32>,
    spans: Vec<Span>,
    stamps: Vec<u32>,
    stamp: u32,
}

// The number of the signal that an input reads, pads' first. A global is none: it has wires of its own.
fn number_of(input: Option<Root>, pads: u32) -> Option<u32> {
    match input? {
        Root::PadIn(pad) => Some(pad),
        Root::CellOut(cell) => Some(pads.saturating_add(cell)),
        Root::GlobalOut(_) | Root::CarryOut(_) => None,
    }
}

// Adds the signals that a cell reads, each once.
fn add_reads(reads: &mut Vec<u32>, cell: &LogicCell, pads: u32) -> Result<Span, NoMemory> {
    let first = reads.len();
    for input in &cell.ins {
        if let Some(number) = number_of(*input, pads) {
            let own = reads.get(first..).unwrap_or(&[]);
            if !own.contains(&number) {
                reads.push(number)?;
            }
        }
    }
    let end = reads.len();
    Ok(Span { first, end })
}

impl Signals {
    /// The signals of cells, and of so many pads. It fails for want of memory alone.
    pub fn new(alloc: Global, pads: u32, cells: &[LogicCell]) -> Result<Signals, NoMemory> {
        let mut reads = Vec::new(alloc);
        let mut spans = Vec::with_capacity(alloc, cells.len())?;
        for cell in cells {
            spans.push(add_reads(&mut reads, cell, pads)?)?;
        }
        Ok(Signals {
            reads,
            spans,
            stamps: vec![in alloc; 0; cells.len().saturating_add(pads as usize)]?,
            stamp: 0,
        })
    }

    // The signals that a cell reads.
    fn reads_of(&self, cell: usize) -> &[u32] {
        match self.spans.get(cell) {
            Some(span) => self.reads.get(span.first..span.end).unwrap_or(&[]),
            None => &[],
        }
    }

    // How many of the signals that a cell reads are not seen yet.
    fn unseen(&self, cell: usize) -> u32 {
        let mut count = 0u32;
        for number in self.reads_of(cell) {
            if let Some(stamp) = self.stamps.get(*number as usize) {
                count = count.wrapping_add(u32::from(*stamp != self.stamp));
            }
        }
        count
    }

    // Sees the signals that a cell reads. How many of them were not seen yet.
    fn see(&mut self, cell: usize) -> u32 {
        let Some(span) = self.spans.get(cell).copied() else {
            return 0;
        };
        let mut count = 0u32;
        for number in self.reads.get(span.first..span.end).unwrap_or(&[]) {
            if let Some(stamp) = self.stamps.get_mut(*number as usize) {
                count = count.wrapping_add(u32::from(*stamp != self.stamp));
                *stamp = self.stamp;
            }
        }
        count
    }

    // Sees the signals that the cells in these slots read, but for one cell, in a new count: how many there are.
    fn count_without(&mut self, slots: &[Option<usize>], other: usize) -> u32 {
        self.stamp = self.stamp.wrapping_add(1);
        let mut count = 0u32;
        for slot in slots {
            if let Some(cell) = *slot {
                if cell != other {
                    count = count.wrapping_add(self.see(cell));
                }
            }
        }
        count
    }

    /// Whether the cells in these slots read few signals, or no more than they did, once one stands in the place of another.
    pub fn is_light(&mut self, slots: &[Option<usize>], leaving: usize, coming: usize) -> bool {
        let count = self.count_without(slots, leaving);
        let more = self.unseen(coming);
        count.wrapping_add(more) <= MOST_SIGNALS || more <= self.unseen(leaving)
    }
}

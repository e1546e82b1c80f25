//! Packed designs.
ghost use Rattle.std.specs.Prelude.{◌≡◌};

use crate::{CarryIn, Items, LogicCell, Root};

/// Cells that stand one above the other, so that the carry of each comes into the next.
#[derive(Drop)]
pub struct Run {
    /// The numbers of the cells, from below.
    pub cells: Items<u32>,
    /// The level that comes into the first.
    pub set: bool,
}

/// The pad of a port.
#[derive(Clone, Copy)]
pub struct DesignPad {
    /// The place of the port.
    pub port: u32,
    /// How the pad drives: 1 not at all, 25 always, 41 where it is enabled.
    pub pin_type: u8,
    /// Whether it is pulled up.
    pub pullup: bool,
    /// What it is driven with.
    pub drive: Option<Root>,
    /// What enables it.
    pub enable: Option<Root>,
    /// Whether something reads the pad's level.
    pub reads: bool,
}

/// A packed design.
#[derive(Drop)]
pub struct Design {
    /// The logic cells, by their numbers.
    pub cells: Items<LogicCell>,
    /// The runs; none before they are made.
    pub runs: Items<Run>,
    /// The pads, one for each port, in the order of ports.
    pub pads: Items<DesignPad>,
    /// What each global buffer reads, by the buffers' numbers.
    pub globals: Items<Option<Root>>,
    /// Before the runs are made: each cell that has a carry, with what comes into it; none afterwards.
    pub carries: Items<(u32, CarryIn)>,
}

impl Design {
    /// The logic cells. Takes no memory, as the other readers.
    pub fn cells(&self) -> &[LogicCell]
        ensures { result.now ≡ self.now.cells }
    {
        self.cells.as_slice()
    }

    /// The runs.
    pub fn runs(&self) -> &[Run]
        ensures { result.now ≡ self.now.runs }
    {
        self.runs.as_slice()
    }

    /// The pads.
    pub fn pads(&self) -> &[DesignPad]
        ensures { result.now ≡ self.now.pads }
    {
        self.pads.as_slice()
    }

    /// What each global buffer reads.
    pub fn globals(&self) -> &[Option<Root>]
        ensures { result.now ≡ self.now.globals }
    {
        self.globals.as_slice()
    }
}

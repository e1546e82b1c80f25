//! The seven delays.

/// How long a signal takes on the way through each sort of part, in picoseconds. A text gives each at most 1,000,000.
#[derive(Clone, Copy, Debug, PartialEq, Eq)]
pub struct Delays {
    /// From outside to the input wire of a pad.
    pub pad_in: u32,
    /// From the output or the enable wire of a pad to the outside.
    pub pad_out: u32,
    /// Through a row of switches that is on, and into a global network.
    pub switch: u32,
    /// Through the look-up table of a cell.
    pub lut: u32,
    /// Through the carry of a cell.
    pub carry: u32,
    /// From an edge of the clock to the output of a flip-flop.
    pub clock_to_q: u32,
    /// How long before an edge of the clock a flip-flop has to see its inputs.
    pub setup: u32,
}

//! The netlist of a configured chip: a port and an SB_IO for each pad of a package, with its registers and its SB_GB, and the look-up
//! tables, carries and flip-flops that the bits make.
#![tactic(auto)]

mod cells;
mod logic;
mod making;
mod names;
mod sides;

pub use making::back;

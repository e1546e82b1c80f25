//! What the cells of a design read: the roots of a netlist's cells, the sinks that read them, and the logic cells and carries
//! made of these.
#![tactic(auto)]

mod carries;
mod cells;
mod constants;
mod flops;
mod inputs;
mod rooting;
mod shares;
mod sinks;
mod slices;
mod tables;

pub use carries::carries_from;
pub use cells::cells_by;
pub use constants::needs_zero;
pub use rooting::roots_from;
pub use sinks::sink;
pub use slices::Slices;

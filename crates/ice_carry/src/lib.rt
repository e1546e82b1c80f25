//! The runs of a design's carries: cells that take a signal into a run and pass its last carry on, flip-flops that leave their
//! cells, and readers that follow them.
#![tactic(auto)]

mod fault;
mod making;
mod moves;
mod renames;

pub use fault::CarryFault;
pub use making::runs;

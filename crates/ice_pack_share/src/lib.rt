//! Which cells of a sound netlist share a logic cell: a look-up table, the flip-flop that alone takes its output, and a carry of
//! the same inputs.
#![tactic(auto)]

mod inputs;
mod known;
pub mod laws;
mod marking;
mod pairing;
mod placing;
mod ports;
mod tracing;

pub use known::{Facts, facts_of};
pub use pairing::luts_behind;
pub use placing::{Homes, homes_of};
pub use ports::bare_outputs;
pub use tracing::origins;

//! Whether a netlist is sound: whether each signal in use has one driver, no signals depend on one another in a circle, each
//! SB_IO is at a port of its own, with a type that is known, and each port that is both an input and an output has one. What a
//! netlist means is defined in `ice_net`.
#![tactic(auto)]

mod cells;
mod checking;
mod drivers;
mod fault;
pub mod laws;
mod lists;
mod loops;
mod names;
mod naming;
mod order;
mod ports;
mod signals;
mod sound;
mod tables;

pub use checking::{check, check_sound};
pub use fault::NetFault;
pub use names::Names;
pub use sound::Sound;
pub use tables::times_of;

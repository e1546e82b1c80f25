//! Pads by their numbers: those of IO tiles, and behind them the pins of block RAMs. A pad gives its level to a wire, or a wire drives it.
#![tactic(auto)]

mod pins;
mod sockets;

pub use pins::{add_pins, first_pins};
pub use sockets::{driven_wire, given_wire, gives, has_io_wire, is_driven};

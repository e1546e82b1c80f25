//! Texts of delays: how long a signal takes on the way through each sort of part of the chip, in picoseconds.
#![tactic(auto)]

mod delays;
mod fault;
mod known;
mod reading;
mod word;

pub use delays::Delays;
pub use fault::DelayFault;
pub use reading::read_delays;

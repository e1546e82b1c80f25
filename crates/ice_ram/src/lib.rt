//! Block RAM: 256 words of sixteen bits with a port that reads and a port that writes, step by step; and circuits that such
//! memories close. What a step means is in specs/Ram.antt, what closing means in specs/Closing.antt.
#![tactic(auto)]

pub mod laws;
mod ports;
mod ram;
mod setup;
mod word;

pub use ports::{RAM_PORTS, join_levels, step_all};
pub use ram::Ram;
pub use setup::{Pins, Setup};

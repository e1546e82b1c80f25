//! Clocks of a netlist take the globals of a chip that are free.
#![tactic(auto)]

pub mod laws;
mod promoting;

pub use promoting::promote_clocks;

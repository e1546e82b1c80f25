//! What is placed and routed of a netlist: with its clocks on free globals, and with the ends of its carry chains in their runs.
#![tactic(auto)]

pub mod laws;
mod preparing;

pub use preparing::prepare;

//! The design of a netlist: its logic cells, pads, global buffers and carries, before the runs of the carries are made.
#![tactic(auto)]

mod globals;
mod packing;
mod pads;
mod reads;

pub use packing::pack;

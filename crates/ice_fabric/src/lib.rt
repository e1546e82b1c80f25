//! The switches of a chip that a route may use, as a graph of its wires.
#![tactic(auto)]

mod usable;

pub use usable::{fabric, fabric_by};

//! The sample chip and the sample netlist: a chip database and a netlist of any size, made by rule, for tests and measurements.
#![tactic(auto)]

mod bits;
mod chip;
mod grid;
mod groups;
mod laws;
mod netlist;
mod pads;
mod pins;
mod sections;
mod sources;
mod text;
mod tracks;
mod wires;

pub use chip::sample_chip;
pub use laws::{names_are_at_places, worked_numbers};
pub use netlist::sample_net;

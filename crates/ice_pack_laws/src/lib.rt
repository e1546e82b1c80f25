//! What packing means: the packed design of a sound netlist shows what the netlist shows.
#![tactic(auto)]

pub mod laws;

//! What the carries at the ends of chains leave as it is in the design of a netlist: what ports want of their pads.
#![tactic(auto)]

pub mod laws;

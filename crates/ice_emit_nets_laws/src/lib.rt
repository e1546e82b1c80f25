//! The nets of placed designs can be given to routing: their roots and targets are wires of the chip, and each sink has a target.
#![tactic(auto)]

pub mod laws;

//! Roots are led to the pins that read them, by the rows that are turned on for a placed and routed design.
#![tactic(auto)]

pub mod laws;

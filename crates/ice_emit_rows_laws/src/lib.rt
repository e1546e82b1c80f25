//! What the bits of a chip do where rows of switches are wanted: each wanted row is on and drives its wire, and no other row is on;
//! and which bits of functions are set beside them.
#![tactic(auto)]

pub mod laws;

//! A chip that its block RAMs close shows what the netlist shows that they close.
#![tactic(auto)]

/// What closed chips show.
pub mod laws;
